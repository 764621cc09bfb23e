//! What a source gives, in a line of text.

ghost use Rattle.std.specs.Prelude.{◌≡◌, [], length};

use sources::source::Source;
use sources::window::last_digits;
use std::io::Print;
use std::{fmt, io};

/// Its radix, how many digits are left and each of them; then its last three, and whether another than 0 fell out.
pub fn digits<S: Source + Drop, F: Fn() -> S>(
    out: &impl Print,
    name: &str,
    make: F,
) -> io::Result<()>
    requires { F.IsAlwaysCallable make }
{
    let mut source = make();
    let start = Start::of(name, &source);
    print!(out; "{start}:")?;
    while let Some(digit) = source.next() {
        print!(out; " {digit}")?;
    }
    last(out, make())
}

/// Its radix, how many digits are left and how many come; then its last three, and whether another than 0 fell out.
pub fn counts<S: Source + Drop, F: Fn() -> S>(
    out: &impl Print,
    name: &str,
    make: F,
) -> io::Result<()>
    requires { F.IsAlwaysCallable make }
{
    let mut source = make();
    let start = Start::of(name, &source);
    let come = count(&mut source);
    print!(out; "{start}, {come} come")?;
    last(out, make())
}

/// How a line begins.
#[derive(Clone, Copy)]
struct Start<'a> {
    name: &'a str,
    radix: u8,
    left: usize,
}

impl<'a> Start<'a> {
    fn of<S: Source>(name: &'a str, source: &S) -> Start<'a> {
        Start {
            name,
            radix: source.radix(),
            left: source.left(),
        }
    }
}

impl fmt::Display for Start<'_> {
    fn fmt<W: fmt::Write>(&self, f: &mut fmt::Formatter<W>) -> fmt::Result {
        let Start { name, radix, left } = *self;
        write!(f, "  {name}: radix {radix}, {left} left")
    }
}

fn last<S: Source + Drop>(out: &impl Print, mut source: S) -> io::Result<()> {
    let mut window = [9u8; 3];
    let lost = last_digits(&mut source, &mut window);
    let left = source.left();
    println!(out; "; last {window:?}, lost {lost}, {left} left")
}

/// How many digits come; a source is no iterator, so they are counted one by one.
fn count<S: Source>(source: &mut S) -> usize
    ensures count { result ≡ length (S.coming source.old) }
    ensures spent { S.coming source.new ≡ [] }
{
    let mut come = 0;
    while let Some(_) = source.next() {
        come += 1;
    }
    come
}
