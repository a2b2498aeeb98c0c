// Scripts run through the world.
use crate::scripts::rows::ROWS;
use std::alloc::Global;
use std::test::Fail;
use ty_base::Text;
use ty_core::{Event, World};

// An event, in words.
#[derive(Clone, Copy)]
pub(crate) enum Word {
    Line(&'static str),
    Join(u64),
    Step(u64),
    Get(u64, u64),
    Hear(u64),
    Cut(u64),
    Tick(u64),
}

fn event(alloc: Global, word: Word) -> Result<Event, Fail> {
    Ok(match word {
        Word::Line(line) => Event::Line(Text::of(alloc, line)?),
        Word::Join(c) => Event::Join(c),
        Word::Step(c) => Event::Step(c),
        Word::Get(c, n) => Event::Get(c, n),
        Word::Hear(c) => Event::Hear(c),
        Word::Cut(c) => Event::Cut(c),
        Word::Tick(ms) => Event::Tick(ms),
    })
}

// The report of a script by the world.
fn world_report(alloc: Global, script: &[Word]) -> Result<String, Fail> {
    let mut world = World::new(alloc)?;
    let mut report = String::new(alloc);
    for word in script {
        let event = event(alloc, *word)?;
        if !event.is_fit(world.now()) {
            return Ok(report);
        }
        let Ok(out) = world.event(alloc, &event) else {
            return Ok(report);
        };
        report.push_str(out.text.as_str())?;
    }
    if let Ok(out) = world.finish(alloc) {
        report.push_str(out.text.as_str())?;
    }
    Ok(report)
}

#[test]
fn rows_have_their_reports(rt: HostRuntime) -> Result<(), Fail> {
    let alloc = rt.alloc();
    for row in &ROWS {
        let world = world_report(alloc, row.script)?;
        assert_eq!(rt; world.as_str(), row.report);
    }
    Ok(())
}
