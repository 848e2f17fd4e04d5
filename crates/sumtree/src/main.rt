//! `sumtree script`: calls of the library read from standard input, each answered by one line.
//!
//! The language is that of docs/SCRIPT.md. The program reads a call, makes it and shows its answer; it decides nothing
//! itself. A new call is a case of `Call` and an arm of `Session::answer`.
#![tactic(auto)]

mod calls;
mod papers;
mod stores;
mod words;

use amount::Amount;
use anystore::types::AnyStore;
use calls::{AmountKind, Call, Shape, read_call};
use digest::Digest;
use digest::kinds::AnyDigest;
use refusal::cases::Refusal;
use row::{Purse, Single};
use std::alloc::{AllocError, Global};
use std::io::{BufRead, BufReader, BufWriter, Write};
use std::{env, fmt};
use words::{Shown, ShownAmount};

// What `use` chose.
#[derive(Clone, Copy)]
struct Chosen {
    amount: AmountKind,
    digest: AnyDigest,
}

// What the calls so far have made.
#[derive(Drop)]
struct Session {
    heap: Global,
    chosen: Option<Chosen>,
    store: Option<AnyStore>,
}

// Why a line has no other answer.
#[derive(Drop)]
pub(crate) enum Stop {
    Refused(Refusal),
    // the types stop the call, or what it needs is not made yet
    NotNow,
    // no line of the language
    Unreadable,
    NoMemory(AllocError),
}

impl From<Refusal> for Stop {
    fn from(refusal: Refusal) -> Stop {
        Stop::Refused(refusal)
    }
}

impl From<AllocError> for Stop {
    fn from(error: AllocError) -> Stop {
        Stop::NoMemory(error)
    }
}

impl fmt::Display for Stop {
    fn fmt<W: fmt::Write>(&self, f: &mut fmt::Formatter<W>) -> fmt::Result {
        match self {
            Stop::Refused(refusal) => {
                let number = refusal.number();
                let offset = refusal.offset();
                write!(f, "refused {number} at {offset}")
            }
            Stop::NotNow => write!(f, "not now"),
            Stop::Unreadable => write!(f, "unreadable"),
            Stop::NoMemory(_) => write!(f, "no memory"),
        }
    }
}

pub(crate) fn said(heap: Global, text: &str) -> Result<String, Stop> {
    Ok(String::from_str(heap, text)?)
}

fn read<A: Amount>(heap: Global, text: &[u8]) -> Result<String, Stop> {
    let amount = ShownAmount(A::read(text)?);
    Ok(format!(in heap; "amount {amount}")?)
}

fn join<A: Amount>(heap: Global, left: &[u64], right: &[u64]) -> Result<String, Stop> {
    let (Some(a), Some(b)) = (A::of_numbers(left), A::of_numbers(right)) else {
        return Err(Stop::Unreadable);
    };
    let joint = ShownAmount(a.join(b)?);
    Ok(format!(in heap; "amount {joint}")?)
}

// Whether some kind has an amount of these numbers.
fn some_amount(numbers: &[u64]) -> bool {
    <Single as Amount>::of_numbers(numbers).is_some()
        || <Purse as Amount>::of_numbers(numbers).is_some()
}

// Whether a line says nothing: it has nothing but spaces, or is a remark.
fn is_silent(line: &[u8]) -> bool {
    line.first() == Some(&b'#') || line.iter().all(|b| *b == b' ')
}

impl Session {
    fn chosen(&self) -> Result<Chosen, Stop> {
        self.chosen.ok_or(Stop::NotNow)
    }

    fn digest(&self, text: &[u8]) -> Result<String, Stop> {
        let digest = self.chosen()?.digest.digest(text)?;
        let shown = Shown(&digest);
        Ok(format!(in self.heap; "digest {shown}")?)
    }

    // Here and in the calls below the kind is asked anew, since a type parameter can be named by no value.
    fn amount(&self, text: &[u8]) -> Result<String, Stop> {
        match self.chosen()?.amount {
            AmountKind::Single => read::<Single>(self.heap, text),
            AmountKind::Purse => read::<Purse>(self.heap, text),
        }
    }

    fn join(&self, left: &[u64], right: &[u64]) -> Result<String, Stop> {
        let Some(chosen) = self.chosen else {
            let readable = some_amount(left) && some_amount(right);
            return Err(if readable {
                Stop::NotNow
            } else {
                Stop::Unreadable
            });
        };
        match chosen.amount {
            AmountKind::Single => join::<Single>(self.heap, left, right),
            AmountKind::Purse => join::<Purse>(self.heap, left, right),
        }
    }

    fn check(&self, sheet: &[u8], file: &[u8]) -> Result<String, Stop> {
        let chosen = self.chosen()?;
        match chosen.amount {
            AmountKind::Single => papers::place::<Single>(self.heap, chosen.digest, sheet, file),
            AmountKind::Purse => papers::place::<Purse>(self.heap, chosen.digest, sheet, file),
        }
    }

    fn fields(&self, depth: u32, file: &[u8]) -> Result<String, Stop> {
        match self.chosen()?.amount {
            AmountKind::Single => papers::fields::<Single>(self.heap, depth, file),
            AmountKind::Purse => papers::fields::<Purse>(self.heap, depth, file),
        }
    }

    // Everything made before is gone.
    fn choose(&mut self, chosen: Chosen) -> Result<String, Stop> {
        self.chosen = Some(chosen);
        self.store = None;
        said(self.heap, "ready")
    }

    fn make_store(&mut self, shape: Shape) -> Result<String, Stop> {
        self.store = Some(stores::made(self.heap, shape)?);
        said(self.heap, "store")
    }

    // A call to the store by itself.
    fn to_store(&mut self, call: Call) -> Result<String, Stop> {
        let heap = self.heap;
        let Some(store) = &mut self.store else {
            return Err(Stop::NotNow);
        };
        match call {
            Call::Put(key, record) => stores::put(heap, store, key, &record),
            Call::Get(key, len) => stores::get(heap, store, key, len),
            Call::Held(closing) => stores::held(heap, store, closing),
            Call::Clear(closing) => stores::clear(heap, store, closing),
            Call::Room => stores::room(heap, store),
            _ => Err(Stop::NotNow),
        }
    }

    fn answer(&mut self, call: Call) -> Result<String, Stop> {
        match call {
            Call::Use(amount, digest) => self.choose(Chosen { amount, digest }),
            Call::Digest(text) => self.digest(&text),
            Call::Amount(text) => self.amount(&text),
            Call::Join(left, right) => self.join(&left, &right),
            Call::Measure(shape) => stores::measure(self.heap, shape),
            Call::Store(shape) => self.make_store(shape),
            Call::Check(sheet, file) => self.check(&sheet, &file),
            Call::Fields(depth, file) => self.fields(depth, &file),
            other => self.to_store(other),
        }
    }

    // The answer to a line that says something.
    fn line(&mut self, line: &[u8]) -> Result<String, Stop> {
        let Ok(text) = std::str::from_utf8(line) else {
            return Err(Stop::Unreadable);
        };
        let call = read_call(self.heap, text)?;
        self.answer(call)
    }
}

fn show<W: Write>(out: &mut W, answer: Result<String, Stop>) -> anyhow::Result<()> {
    match answer {
        Ok(text) => writeln!(out, "{text}")?,
        Err(Stop::NoMemory(error)) => return Err(error.into()),
        Err(stop) => writeln!(out, "{stop}")?,
    }
    Ok(())
}

fn script(rt: &HostRuntime) -> anyhow::Result<()> {
    let heap = rt.alloc();
    let mut out = BufWriter::new(heap, rt.stdout())?;
    let mut session = Session {
        heap,
        chosen: None,
        store: None,
    };
    for line in BufReader::new(heap, rt.stdin())?.split(heap, b'\n') {
        let line = line?;
        if !is_silent(&line) {
            show(&mut out, session.line(&line))?;
        }
    }
    out.flush()?;
    Ok(())
}

fn usage(rt: &HostRuntime) -> anyhow::Result<()> {
    println!(rt; "usage: sumtree script")?;
    println!(rt; "  reads calls from standard input, one to a line, and answers each by one line")?;
    println!(rt; "  (the language is described in docs/SCRIPT.md)")?;
    Ok(())
}

fn main(rt: HostRuntime) -> anyhow::Result<()> {
    let mut args = env::args(&rt)?;
    let _program = args.next();
    let script_asked = args.next().is_some_and(|word| word.as_str() == "script");
    if script_asked && args.next().is_none() {
        return script(&rt);
    }
    usage(&rt)
}
