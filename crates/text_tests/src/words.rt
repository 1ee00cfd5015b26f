// What the words of a command say, by examples.

ghost use Rattle.std.specs.Prelude.{◌≡◌, false};
ghost use Rattle.std.specs.List.{list_any};
ghost use Rattle.command_words.specs.Command.{words_in};
ghost use Rattle.command_words.specs.Words.{begins_with_dash};

use command_words::{LiveWords, PlainWords, batch_words, check_words, live_words, plain_words};
use std::alloc::Global;
use std::test::Fail;

/// The words of a line, which a blank parts.
fn words_of(alloc: Global, line: &str) -> Result<Vec<&str>, Fail> {
    let mut words = Vec::new(alloc);
    for word in line.split(' ') {
        if line != "" {
            words.push(word)?;
        }
    }
    Ok(words)
}

/// What the words of a line say: their command with its names, `none` where they have no form, and `refused` where they
/// break a rule for `-`.
fn said(alloc: Global, line: &str) -> Result<String, Fail> {
    let words = words_of(alloc, line)?;
    match plain_words(alloc, &words)? {
        Some(plain) => said_by(alloc, &plain),
        None => Ok(format!(in alloc; "refused")?),
    }
}

/// The same of plain words. Of `live` it is the plan, the journal, the number of workers, and each desk's two names.
fn said_by(alloc: Global, plain: &PlainWords<'_>) -> Result<String, Fail>
    requires { list_any begins_with_dash (words_in plain.now.plain.items) ≡ false }
{
    if let Some(names) = batch_words(alloc, plain)? {
        let text = format!(in alloc; "batch {} {} {}", names.plan, names.input, names.output)?;
        return Ok(text);
    }
    if let Some(name) = check_words(alloc, plain)? {
        return Ok(format!(in alloc; "check {name}")?);
    }
    match live_words(alloc, plain)? {
        Some(live) => shown_live(alloc, &live),
        None => Ok(format!(in alloc; "none")?),
    }
}

/// What the words of `live` say.
fn shown_live(alloc: Global, live: &LiveWords<'_>) -> Result<String, Fail> {
    let mut text = format!(in alloc; "live {} {} {}", live.plan, live.journal, live.workers)?;
    for desk in &live.desks {
        text.push_str(" ")?;
        text.push_str(desk.input)?;
        text.push_str(">")?;
        text.push_str(desk.output)?;
    }
    Ok(text)
}

/// The words of `live` with so many desks.
fn line_with(alloc: Global, desks: u8) -> Result<String, Fail> {
    let mut line = format!(in alloc; "live p j")?;
    for desk in 0..desks {
        let names = format!(in alloc; " i{desk} o{desk}")?;
        line.push_str(&names)?;
    }
    Ok(line)
}

#[test]
fn words_say_their_command(rt: HostRuntime) -> Result<(), Fail> {
    let rows = [
        ("", "none"),
        ("other", "none"),
        ("batch", "none"),
        ("batch p i o", "batch p i o"),
        ("batch p i o x", "none"),
        ("batch a a b", "none"),
        ("batch a b a", "none"),
        ("batch a  b", "none"),
        ("batch p i -o", "refused"),
        ("batch p i o --workers 3", "refused"),
        ("check c", "check c"),
        ("check c d", "none"),
        ("check -x", "refused"),
        ("check", "none"),
        ("live p j", "none"),
        ("live p j i", "none"),
        ("live p j i o", "live p j 2 i>o"),
        ("live p j i i", "none"),
        ("live p p i o", "none"),
        ("live p j i o k", "none"),
        ("live p j i o k l", "live p j 2 i>o k>l"),
        ("live p j --workers 0 i o", "live p j 0 i>o"),
        ("live --workers 16 p j i o", "live p j 16 i>o"),
        ("live --workers 17 p j i o", "none"),
        (
            "live --workers 00000000000000000016 p j i o",
            "live p j 16 i>o",
        ),
        ("live --workers 000000000000000000016 p j i o", "none"),
        ("live --workers 99999999999999999999 p j i o", "none"),
        ("live --workers +3 p j i o", "none"),
        ("live p j i o --workers", "refused"),
        ("live p j i o --workers 2 --workers 2", "refused"),
        ("--workers 3 live p j i o", "refused"),
        ("live p j i o --help", "refused"),
        ("live p j - o", "refused"),
    ];
    for (line, want) in rows {
        let text = said(rt.alloc(), line)?;
        assert_eq!(rt; text.as_str(), want, "{line}");
    }
    Ok(())
}

#[test]
fn sixteen_desks_at_most(rt: HostRuntime) -> Result<(), Fail> {
    let alloc = rt.alloc();
    let sixteen = said(alloc, &line_with(alloc, 16)?)?;
    assert!(rt; sixteen.as_str().ends_with(" i14>o14 i15>o15"));
    let seventeen = said(alloc, &line_with(alloc, 17)?)?;
    assert_eq!(rt; seventeen.as_str(), "none");
    Ok(())
}
