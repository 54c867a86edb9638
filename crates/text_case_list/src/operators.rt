use super::report::report;
use std::io;
use tokens::Stage;

static OPERATORS: [&str; 21] = [
    "adds",
    "takes",
    "multiplies",
    "divides",
    "is-less",
    "copies",
    "drops",
    "swaps",
    "defines",
    "repeats",
    "when",
    "moves",
    "lines",
    "fills",
    "clips-by",
    "greys",
    "shifts",
    "scales",
    "keeps",
    "back",
    "shows",
];

// What stands before and behind an operator: nothing, a body that is never run, a stroke, a letter more.
static AROUND: [(&str, &str); 4] = [("", ""), ("{ ", " }"), ("/", ""), ("", "s")];

fn report_around<S: Stage>(rt: &HostRuntime, operator: &str) -> io::Result<()> {
    for (before, behind) in &AROUND {
        let source = format!(in rt.alloc(); "{before}{operator}{behind}")?;
        report::<S>(rt, source.as_str(), source.as_bytes())?;
    }
    Ok(())
}

pub fn report_operators<S: Stage>(rt: &HostRuntime) -> io::Result<()> {
    for operator in &OPERATORS {
        report_around::<S>(rt, operator)?;
    }
    Ok(())
}
