// A board of numbers.

ghost use Rattle.std.specs.Prelude.{◌≡◌, ◌<◌, length, IfOk};

use std::alloc::Global;
use std::sync::Arc;
use std::test::Fail;
use vintage_board::Board;

/// A board of two items that shows these numbers.
fn board_of(alloc: Global, first: u32, second: u32) -> Result<Board<u32>, Fail>
    ensures front { IfOk result (λ board. board.front ≡ 0) }
    ensures items { IfOk result (λ board. length board.shown ≡ 2) }
{
    let mut tables = Vec::with_capacity(alloc, 2)?;
    tables.push(Arc::new(alloc, first)?)?;
    tables.push(Arc::new(alloc, second)?)?;
    Ok(Board::new(alloc, tables)?)
}

/// Stages a number.
fn stage(board: &mut Board<u32>, alloc: Global, node: u16, number: u32) -> Result<(), Fail>
    requires { node < length board.old.shown }
    ensures front { board.new.front ≡ board.old.front }
    ensures items { length board.new.shown ≡ length board.old.shown }
{
    board.stage(node, Arc::new(alloc, number)?);
    Ok(())
}

/// The front and the two numbers that are shown.
fn shown(board: &Board<u32>) -> (u64, u32, u32)
    requires { length board.now.shown ≡ 2 }
{
    (board.front(), **board.show(0), **board.show(1))
}

#[test]
fn what_is_staged_is_shown_when_it_is_put(rt: HostRuntime) -> Result<(), Fail> {
    let alloc = rt.alloc();
    let mut board = board_of(alloc, 10, 20)?;
    stage(&mut board, alloc, 1, 21)?;
    stage(&mut board, alloc, 1, 22)?;
    assert_eq!(rt; shown(&board), (0, 10, 20));
    board.put(3);
    assert_eq!(rt; shown(&board), (3, 10, 22));
    stage(&mut board, alloc, 0, 11)?;
    board.put(7);
    assert_eq!(rt; shown(&board), (7, 11, 22));
    Ok(())
}
