// The program: reads a book from a file or from standard input and prints the report on it, or the verdict on payments for it.
#![tactic(auto)]

ghost use Rattle.std.specs.Prelude.{◌≡◌, true, IfErr};
ghost use Rattle.purser.specs.Faults.{FailsBy, arguments, cause_of, file, of_text, source, standard_input, standard_output};

use command::{Command, asked_for};
use fault::Fault;
use std::alloc::AllocError;
use std::io::Read;
use std::process::ExitCode;
use std::{env, fs};
use text::auditing::verdict;
use text::report;

mod command;
mod fault;

const HELP: &str = "\
usage: purser [FILE]
       purser --audit PAYMENTS [FILE]

Prints the report on a book of bills and payments: an answer to each line, who owes and who is owed,
and the payments that settle it. The book is read from FILE, or from standard input.

  --audit PAYMENTS  print instead the verdict on the payments of a file, each after a byte of its length:
                    whether they settle the book with the fewest payments and the least money
  --help            print this
  --version         print the version
";

const VERSION: &str = "purser 1.0.0\n";

// What goes wrong is told on standard error, and the status is then 1.
fn main(rt: HostRuntime) -> ExitCode {
    let Err(fault) = run(&rt) else {
        return ExitCode::SUCCESS;
    };
    let _ = eprintln!(rt; "purser: {fault}");
    ExitCode::FAILURE
}

// Does what the arguments ask for.
fn run(rt: &HostRuntime) -> Result<(), Fault> {
    match read_arguments(rt)? {
        Command::Report { book } => print_made(rt, report(rt.alloc(), &read_book(rt, book)?)),
        Command::Audit { payments, book } => {
            let payments = read_file(rt, payments)?;
            print_made(rt, verdict(rt.alloc(), &read_book(rt, book)?, &payments))
        }
        Command::NoPayments => Err(Fault::NoPayments),
        Command::Help => print(rt, HELP),
        Command::Version => print(rt, VERSION),
        Command::Unknown(word) => Err(Fault::UnknownArgument(word)),
    }
}

// What the arguments after the program's own name ask for.
fn read_arguments(rt: &HostRuntime) -> Result<Command, Fault>
    ensures { FailsBy arguments result }
{
    let mut words = env::args(rt).map_err(Fault::Arguments)?.skip(1);
    Ok(asked_for(words.next(), words.next(), words.next(), words.next()))
}

// The book of a file, or of standard input where there is no name.
fn read_book(rt: &HostRuntime, name: Option<String>) -> Result<Vec<u8>, Fault>
    ensures { FailsBy (source name) result }
{
    match name {
        Some(name) => read_file(rt, name),
        None => read_input(rt),
    }
}

// All of standard input.
fn read_input(rt: &HostRuntime) -> Result<Vec<u8>, Fault>
    ensures { FailsBy standard_input result }
{
    let mut input = Vec::new(rt.alloc());
    rt.stdin().read_to_end(&mut input).map_err(Fault::Input)?;
    Ok(input)
}

// All of a file; a fault has its name.
fn read_file(rt: &HostRuntime, name: String) -> Result<Vec<u8>, Fault>
    ensures { FailsBy (file name) result }
{
    fs::read(rt, name.as_str()).map_err(|why| Fault::File(name, why))
}

// Prints a text, once all of it is made, where there was memory for it.
fn print_made(rt: &HostRuntime, made: Result<String, AllocError>) -> Result<(), Fault>
    ensures { IfErr result (λ e. of_text (cause_of e) ≡ true) }
{
    print(rt, made?.as_str())
}

// Prints a text that is there.
fn print(rt: &HostRuntime, text: &str) -> Result<(), Fault>
    ensures { FailsBy standard_output result }
{
    rt.print(text).map_err(Fault::Output)
}
