//! Works on terms as text, a line each. `term_tool show` prints each as text and, behind a tab, as bytes in hexadecimal;
//! `term_tool sort` prints all of them in their order. `read`, `print`, `encode` and `decode` do this to every term as often as
//! the next word says, and print nothing, so that it can be timed. `term_tool answer` answers a table of terms as text and as
//! bytes, with its refusals (`answers.rt`). The exit status is 1 where a line is no term, and 2 where the words are others.
#![tactic(auto)]

mod answers;
mod tasks;
mod terms;

use std::env;
use std::process::ExitCode;
use tasks::{Task, run};

// The task that the words name, and how often it is to be done.
fn task_of(words: &[String]) -> Option<(Task, u32)> {
    let name = words.first()?;
    let task = Task::named(name.as_str())?;
    match words.get(1) {
        Some(times) => Some((task, times.as_str().parse().ok()?)),
        None => Some((task, 1)),
    }
}

fn main(rt: HostRuntime) -> ExitCode {
    let Ok(mut words) = env::args(&rt) else {
        return ExitCode::from(2);
    };
    let _program = words.next();
    let Ok(words) = words.collect::<Vec<String>>(rt.alloc()) else {
        return ExitCode::from(2);
    };
    let Some((task, times)) = task_of(&words) else {
        return ExitCode::from(2);
    };
    match run(&rt, task, times) {
        Ok(()) => ExitCode::SUCCESS,
        Err(_) => ExitCode::FAILURE,
    }
}
