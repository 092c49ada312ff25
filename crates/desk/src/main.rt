// The desk: reads a script of commands, one to a line, and posts client money.
#![tactic(auto)]

use crate::serve::run;
use std::io::{BufReader, Read};
use std::process::ExitCode;
use std::{env, fmt, fs, io};

mod answer;
mod counts;
mod lines;
mod report;
mod serve;
mod several;
mod totals;

// What went wrong was said on standard error already.
fn main(rt: HostRuntime) -> ExitCode {
    match run_named(&rt) {
        Ok(()) => ExitCode::SUCCESS,
        Err(_) => ExitCode::FAILURE,
    }
}

fn run_named(rt: &HostRuntime) -> io::Result<()> {
    match told(rt, "", script_name(rt))? {
        Some(name) => run_file(rt, name.as_str()),
        None => run_source(rt, "standard input", rt.stdin()),
    }
}

// The script's file, where one is named.
fn script_name(rt: &HostRuntime) -> io::Result<Option<String>> {
    let mut args = env::args(rt)?;
    let _ = args.next();
    let name = args.next();
    if args.next().is_some() {
        return Err(io::Error::other("at most one argument is taken, the file of the script"));
    }
    Ok(name)
}

fn run_file(rt: &HostRuntime, name: &str) -> io::Result<()> {
    let file = told(
        rt,
        format_args!("cannot open '{name}': "),
        fs::open(rt, name),
    )?;
    run_source(rt, name, file)
}

fn run_source<R: Read + Drop>(rt: &HostRuntime, name: &str, source: R) -> io::Result<()> {
    let res = run_buffered(rt, source);
    told(rt, format_args!("the run of '{name}' ended early: "), res)
}

fn run_buffered<R: Read + Drop>(rt: &HostRuntime, source: R) -> io::Result<()> {
    run(rt, BufReader::new(rt.alloc(), source)?)
}

// Says on standard error what failed, and why.
fn told<T: Drop, S: fmt::Display + Drop>(
    rt: &HostRuntime,
    step: S,
    res: io::Result<T>,
) -> io::Result<T> {
    if let Err(why) = &res {
        eprintln!(rt; "desk: {step}{why}")?;
    }
    res
}
