//! What `bench/store.sh` times: puts and gets on a flat store. It prints the nanoseconds, and a number that shows what it did.
//!
//! Nothing else belongs here; the work has to stay that of `bench/slots.c`, step by step.
#![tactic(auto)]

use flat::types::Flat;
use numbering::{Closing, Key, Place};
use std::alloc::Global;
use std::env;
use std::env::Args;
use std::iter::Cycle;
use std::ops::Range;
use std::time::Instant;
use store::NodeStore;
use store::limits::Limits;

// The bytes of a record.
const WIDTH: usize = 40;

fn key(place: u32) -> Key {
    Key {
        closing: Closing(1),
        place: Place(place),
    }
}

// Place after place from 1 to bound - 1, and round again.
fn places(bound: u32) -> Cycle<Range<u32>> {
    (1..bound.max(2)).cycle()
}

// Puts n records, and answers how many were taken. The records are sixteen stretches of one text, so that no record is
// written just before it is copied.
fn put_many(store: &mut Flat, bound: u32, n: u32, text: &[u8; 56]) -> u64 {
    let mut taken: u64 = 0;
    for (i, place) in places(bound).take(n as usize).enumerate() {
        let at = i % 16;
        if store.put(key(place), &text[at..at + WIDTH]).is_ok() {
            taken = taken.wrapping_add(1);
        }
    }
    taken
}

// Gets n records in the same order, and answers the sum of their first and last bytes.
fn get_many(store: &mut Flat, bound: u32, n: u32, record: &mut [u8; WIDTH]) -> u64 {
    places(bound).take(n as usize).fold(0, |sum: u64, place| {
        match store.get(key(place), record) {
            Ok(true) => sum
                .wrapping_add(record[0] as u64)
                .wrapping_add(record[WIDTH - 1] as u64),
            _ => sum,
        }
    })
}

fn byte_sum(bytes: &[u8]) -> u64 {
    bytes
        .iter()
        .fold(0, |sum: u64, byte| sum.wrapping_add(*byte as u64))
}

// The bytes that the records are cut from.
fn text() -> [u8; 56] {
    let mut text = [0u8; 56];
    for (byte, i) in text.iter_mut().zip(0..56u8) {
        *byte = i.wrapping_mul(37).wrapping_add(11);
    }
    text
}

// Makes a store with places 1 to bound - 1, and does so many puts and then so many gets.
fn work(heap: Global, bound: u32, puts: u32, gets: u32) -> u64 {
    // without memory 0, as the plain one answers
    let Ok(memory) = vec![in heap; 0u8; bound as usize * (WIDTH + 1)] else {
        return 0;
    };
    let limits = Limits {
        width: WIDTH,
        first: 1,
        last: 1,
        bound,
    };
    let mut store = Flat::new(memory, limits);
    let mut record = [0u8; WIDTH];
    let taken = put_many(&mut store, bound, puts, &text());
    let sum = get_many(&mut store, bound, gets, &mut record);
    // Every byte of the last record counts, so that no copy of a record can be left out.
    taken
        .wrapping_add(sum)
        .wrapping_add(byte_sum(&record))
        .wrapping_add(store.room())
}

// The next argument as a number.
fn number(args: &mut Args) -> Option<u32> {
    args.next()?.as_str().parse().ok()
}

fn timed(rt: &HostRuntime, bound: u32, puts: u32, gets: u32) -> anyhow::Result<()> {
    let start = Instant::now(rt)?;
    let seen = work(rt.alloc(), bound, puts, gets);
    let took = start.elapsed(rt)?.as_nanos();
    println!(rt; "{took} {seen}")?;
    Ok(())
}

fn main(rt: HostRuntime) -> anyhow::Result<()> {
    let mut args = env::args(&rt)?;
    let _program = args.next();
    let (bound, puts, gets) = (number(&mut args), number(&mut args), number(&mut args));
    match (bound, puts, gets) {
        (Some(bound), Some(puts), Some(gets)) => timed(&rt, bound, puts, gets),
        _ => {
            println!(rt; "usage: bench_store BOUND PUTS GETS")?;
            Ok(())
        }
    }
}
