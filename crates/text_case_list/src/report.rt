use std::io;
use text::count_tokens;
use tokens::Stage;

// The one place where a text is read for a line of its own.
pub fn report<S: Stage>(rt: &HostRuntime, name: &str, source: &[u8]) -> io::Result<()> {
    match count_tokens::<S>(source) {
        Ok(n) => println!(rt; "{name}: tokens {n}"),
        Err(refusal) => println!(rt; "{name}: {refusal}"),
    }
}
