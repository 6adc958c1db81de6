// Matches the opens, splits and sames of each strand of the sheet on standard input, and shows what they bind.
#![tactic(auto)]

use input::{LONGEST, read_input};
use matching::{Binding, Matching, Trial};
use protocol::{Step, Strand};
use sheet::{Sheet, SheetFault, Text, text_at};
use std::alloc::AllocError;
use std::io;
use terms::NodeNo;

// The two nodes that a step makes equal.
fn sides(step: Step) -> Option<(NodeNo, NodeNo)> {
    match step {
        Step::Open { subject, pattern } | Step::Split { subject, pattern } => Some((
            subject, pattern,
        )),
        Step::Same { left, right } => Some((left, right)),
        Step::Input { .. } | Step::Output { .. } => None,
    }
}

fn show_binding(rt: &HostRuntime, variables: &[Text], b: Binding) -> io::Result<()> {
    let name = text_at(variables, b.variable.0);
    println!(rt; "    {name} is node {}", b.node.0)
}

// The steps of one strand in turn, up to one that cannot be made equal.
fn show_strand(
    rt: &HostRuntime,
    sheet: &Sheet,
    trial: &mut Trial<'_>,
    strand: &Strand,
) -> io::Result<()> {
    for (i, step) in strand.steps().iter().enumerate() {
        let Some((a, b)) = sides(*step) else {
            continue;
        };
        let before = trial.bindings().len();
        let yes = matches!(trial.matches(a, b), Ok(true));
        let answer = if yes { "yes" } else { "no" };
        println!(rt; "  {i} node {} with node {}: {answer}", a.0, b.0)?;
        for new in trial.bindings().iter().skip(before) {
            show_binding(rt, sheet.variables(), *new)?;
        }
        if !yes {
            break;
        }
    }
    Ok(())
}

// Each strand from no bindings: the trial takes back what the one before it bound.
fn show(rt: &HostRuntime, sheet: &Sheet) -> io::Result<()> {
    let mut m = Matching::open(rt.alloc(), sheet)?;
    for (k, strand) in sheet.strands().iter().enumerate() {
        println!(rt; "strand {k}")?;
        let mut trial = Trial::of(&mut m);
        show_strand(rt, sheet, &mut trial, strand)?;
    }
    Ok(())
}

fn main(rt: HostRuntime) -> io::Result<()> {
    // fixed memory, and a public call that says how many bytes came
    let mut buf = [0u8; LONGEST];
    let n = read_input(&rt, &mut buf)?;
    let mut sheet = Sheet::new(rt.alloc())?;
    match sheet.read(rt.alloc(), &buf[..n]) {
        Ok(()) => show(&rt, &sheet),
        Err(SheetFault::Refused { rule, record }) => {
            // in words here, since the fault's other case has none
            println!(rt; "refused {} {record}", rule.number())
        }
        // by hand: the fault keeps no error of the library, and a From would have to answer a refused file too
        Err(SheetFault::NoMemory) => Err(io::Error::from(AllocError)),
    }
}
