//! The rows of the program: cases as data, played over its top call with files in memory. Each word names a file of
//! cases (data/README.md has their form); a line is printed for each case, and last 'N passed, M failed'. It ends with
//! status 0 where every case holds.
#![tactic(auto)]

mod calls;
mod checks;
mod contents;
mod frames;
mod player;
mod script;
mod tokens;

use crate::player::Player;
use crate::script::Script;
use std::process::ExitCode;
use std::rt::Files;
use std::{env, fs, io};

/// How many cases held, and how many didn't.
#[derive(Clone, Copy)]
struct Tally {
    passed: u32,
    failed: u32,
}

// plays one file of cases
fn play_file(rt: &HostRuntime, name: &str, tally: Tally) -> io::Result<Tally> {
    let alloc = rt.alloc();
    let text = fs::read_to_string(rt, name)?;
    let script = Script::read(alloc, text.as_str())?;
    let Tally { passed, failed } = play_script(rt, &script)?;
    println!(rt; "{name}: {passed} passed, {failed} failed")?;
    Ok(Tally {
        passed: tally.passed.saturating_add(passed),
        failed: tally.failed.saturating_add(failed),
    })
}

fn play_script(rt: &HostRuntime, script: &Script) -> io::Result<Tally> {
    let mut player = Player::new(rt.alloc());
    player.play(rt, script)?;
    Ok(Tally {
        passed: player.passed,
        failed: player.failed,
    })
}

fn play_files(rt: &HostRuntime) -> io::Result<Tally> {
    let mut tally = Tally {
        passed: 0,
        failed: 0,
    };
    for name in env::args(rt)?.skip(1) {
        tally = play_file(rt, name.as_str(), tally)?;
    }
    println!(rt; "{} passed, {} failed", tally.passed, tally.failed)?;
    Ok(tally)
}

fn main(rt: HostRuntime) -> io::Result<ExitCode> {
    let tally = play_files(&rt)?;
    Ok(ExitCode::from(u8::from(tally.failed != 0 || tally.passed == 0)))
}
