//! Assigns the tasks of random groups, changes each assignment at random, and prints the groups with both assignments and with
//! whether they are good, for a second reading of the rules.
//!
//! The one word after the program's name is how many groups there are; 0 is one group of 1,000 tasks and 16 workers with 3
//! standbys, of which nothing is printed but whether its assignment is good.
#![tactic(auto)]

mod drawing;
mod printing;

use drawing::{Draws, Setting, changed, large_setting, make_setting};
use ks_assign::{Assignment, are_clients, are_tasks_apart, assign, check};
use printing::{print_places, print_setting};
use std::alloc::{AllocError, Global};
use std::{env, io};

// Where the tasks of a group stand, as `assign` has it; none where its conditions don't hold.
fn assigned(alloc: Global, s: &Setting) -> Result<Option<Assignment>, AllocError> {
    if !(are_clients(&s.clients) && are_tasks_apart(&s.tasks)) {
        return Ok(None);
    }
    let a = assign(alloc, &s.tasks, &s.clients, &s.held, &s.wants)?;
    Ok(Some(a))
}

// Prints an assignment and whether it is good.
fn print_answer(rt: &HostRuntime, s: &Setting, a: &Assignment) -> io::Result<()> {
    print_places(rt, a.active.as_slice())?;
    print_places(rt, a.standby.as_slice())?;
    print_places(rt, a.warmup.as_slice())?;
    let good = check(&s.tasks, &s.clients, &s.held, &s.wants, a);
    println!(rt; " {good}")
}

// One group: its assignment, and a changed one.
fn print_case(rt: &HostRuntime, draws: &mut Draws) -> io::Result<()> {
    let alloc = rt.alloc();
    let s = make_setting(alloc, draws)?;
    print_setting(rt, &s)?;
    if let Some(a) = assigned(alloc, &s)? {
        print_answer(rt, &s, &a)?;
        let b = changed(alloc, draws, a, &s)?;
        print_answer(rt, &s, &b)?;
    }
    Ok(())
}

// Assigns the tasks of a large group.
fn print_large(rt: &HostRuntime) -> io::Result<()> {
    let s = large_setting(rt.alloc())?;
    if let Some(a) = assigned(rt.alloc(), &s)? {
        let good = check(&s.tasks, &s.clients, &s.held, &s.wants, &a);
        println!(rt; "{good}")?;
    }
    Ok(())
}

// The word after the program's name as a number; 0 where it is none.
fn count_of(rt: &HostRuntime) -> io::Result<u32> {
    let words: Vec<String> = env::args(rt)?.skip(1).collect(rt.alloc())?;
    match words.first() {
        Some(word) => Ok(word.as_str().parse::<u32>().unwrap_or(0)),
        None => Ok(0),
    }
}

fn main(rt: HostRuntime) -> io::Result<()> {
    let count = count_of(&rt)?;
    if count == 0 {
        return print_large(&rt);
    }
    let mut draws = Draws::new(1);
    for _ in 0..count {
        print_case(&rt, &mut draws)?;
    }
    Ok(())
}
