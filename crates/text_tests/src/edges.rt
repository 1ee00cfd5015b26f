use qna_edges::{
    Cabinet, FileCabinet, Gate, MemCabinet, MemSink, MemSource, OpenGate, Place, QuietSink,
    QuietSource, Refused, Sink, Source, Status, StdoutSink, write_all,
};
use std::fs;
use std::test::Fail;

#[test]
fn a_source_gives_its_pieces_and_fails_where_listed(rt: HostRuntime) -> Result<(), Fail> {
    let alloc = rt.alloc();
    let mut source = MemSource::new(b"abcde".to_vec(alloc)?, 2, [2].to_vec(alloc)?);
    let mut buf = [0; 4];
    for (call, want) in [(1, 2), (2, 9), (3, 2), (4, 1), (5, 0)] {
        assert_eq!(rt; source.read(&mut buf).unwrap_or(9), want, "read {call}");
    }
    assert_eq!(rt; buf, *b"ed\0\0");
    let mut quiet = QuietSource::new(b"abcde".to_vec(alloc)?);
    for (call, want) in [(1, 4), (2, 1), (3, 0)] {
        assert_eq!(rt;
            quiet.read(&mut buf).unwrap_or(9),
            want,
            "quiet read {call}"
        );
    }
    Ok(())
}

#[test]
fn a_text_is_written_up_to_the_first_fault(rt: HostRuntime) -> Result<(), Fail> {
    let alloc = rt.alloc();
    let mut sink = MemSink::new(alloc, 3, [2].to_vec(alloc)?);
    assert_eq!(rt; write_all(&mut sink, b"abcdefg"), Err(Refused::Failed));
    assert_eq!(rt; sink.held(), b"abc".as_slice());
    assert_eq!(rt; write_all(&mut sink, b"defgh"), Ok(()));
    assert_eq!(rt; sink.held(), b"abcdefgh".as_slice());
    let mut quiet = QuietSink::new(alloc);
    assert_eq!(rt; write_all(&mut quiet, b"whole"), Ok(()));
    assert_eq!(rt; quiet.held(), b"whole".as_slice());
    Ok(())
}

#[test]
fn a_file_in_memory_is_opened_and_handed_back(rt: HostRuntime) -> Result<(), Fail> {
    let alloc = rt.alloc();
    let mut cabinet = MemCabinet::new(alloc);
    let plan = MemSource::new(b"start,2021".to_vec(alloc)?, 64, Vec::new(alloc));
    cabinet.put_file("plan", plan)?;
    let mut source = cabinet.open("plan")?;
    let mut buf = [0; 64];
    assert_eq!(rt; source.read(&mut buf), Ok(10));
    cabinet.back_in(source);
    assert_eq!(rt;
        cabinet.file("plan").ok_or("no file")?,
        b"start,2021".as_slice()
    );
    Ok(())
}

#[test]
fn a_planned_sink_is_given_and_what_it_holds_stands(rt: HostRuntime) -> Result<(), Fail> {
    let alloc = rt.alloc();
    let mut cabinet = MemCabinet::new(alloc);
    cabinet.plan_sink("out", MemSink::new(alloc, 2, Vec::new(alloc)))?;
    let mut sink = cabinet.create("out")?;
    assert_eq!(rt; sink.write(b"xyz"), Ok(2));
    assert!(rt; cabinet.file("out").is_none());
    cabinet.back_out(sink);
    assert_eq!(rt; cabinet.file("out").ok_or("no file")?, b"xy".as_slice());
    Ok(())
}

#[test]
fn the_listed_calls_fail_and_no_others(rt: HostRuntime) -> Result<(), Fail> {
    let alloc = rt.alloc();
    let mut cabinet = MemCabinet::new(alloc);
    cabinet.fail_opens([2].to_vec(alloc)?);
    for (call, want) in [(1, true), (2, false), (3, true)] {
        assert_eq!(rt; cabinet.create("out").is_ok(), want, "call {call}");
    }
    assert!(rt; matches!(cabinet.open("none"), Err(Refused::Failed)));
    Ok(())
}

#[test]
fn a_file_is_written_once_and_read_in_pieces_each_time(rt: HostRuntime) -> Result<(), Fail> {
    let alloc = rt.alloc();
    let mut cabinet = FileCabinet::new(&rt, alloc);
    let mut sink = cabinet.create("qna_edges_file")?;
    assert_eq!(rt; write_all(&mut sink, b"release,"), Ok(()));
    assert_eq!(rt; write_all(&mut sink, b"5\n"), Ok(()));
    cabinet.back_out(sink);
    for reading in [1, 2] {
        let mut source = cabinet.open("qna_edges_file")?;
        let mut buf = [0; 4];
        for piece in ["rele", "ase,", "5\n", ""] {
            let count = source.read(&mut buf)?;
            assert_eq!(rt; &buf[..count], piece.as_bytes(), "reading {reading}");
        }
    }
    fs::remove_file(&rt, "qna_edges_file")?;
    Ok(())
}

#[test]
fn a_fault_of_the_system_is_told(rt: HostRuntime) -> Result<(), Fail> {
    let mut cabinet = FileCabinet::new(&rt, rt.alloc());
    assert!(rt; matches!(cabinet.open("qna_edges_none"), Err(Refused::Failed)));
    assert!(rt; matches!(cabinet.create("qna_edges_none/file"), Err(Refused::Failed)));
    let mut buf = [0; 8];
    let mut folder = cabinet.open("/")?;
    assert!(rt; folder.read(&mut buf).is_err(), "a folder is read");
    cabinet.back_in(folder);
    let mut full = cabinet.create("/dev/full")?;
    assert_eq!(rt; full.write(b"x"), Err(Refused::Failed));
    cabinet.back_out(full);
    Ok(())
}

#[test]
fn standard_output_takes_a_line(rt: HostRuntime) -> Result<(), Fail> {
    let mut out = StdoutSink::new(rt.stdout());
    assert_eq!(rt; write_all(&mut out, b"a line of the report\n"), Ok(()));
    Ok(())
}

#[test]
fn statuses_have_their_numbers_and_an_open_gate_lets_through(rt: HostRuntime) {
    let numbers = [
        (Status::Done, 0),
        (Status::Memory, 1),
        (Status::Usage, 2),
        (Status::PlanFault, 3),
        (Status::OpenFault, 4),
        (Status::ReadFault, 5),
        (Status::WriteFault, 6),
        (Status::CheckNo, 7),
        (Status::TooMuch, 8),
    ];
    for (status, number) in numbers {
        assert_eq!(rt; status.number(), number, "{status:?}");
    }
    OpenGate.at(1, Place::AfterRead { front: 0 });
    OpenGate.at(17, Place::BeforeJob { front: 5, node: 0 });
}
