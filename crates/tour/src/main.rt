//! A tour of the library: one ledger from its lines, node by node, to the sheet for the notice, and one line's file to the
//! customer's check.
//!
//! It reads data/ledger.txt (a closing and a depth, then a line for each balance: customer number, salt and cents) and
//! prints every step, so that a person can follow it.
#![tactic(auto)]

mod ledger;
mod stop;

use anyhow::{anyhow, ensure};
use digest::kinds::Sha256;
use file::Fields;
use file::types::Found;
use flat::types::Flat;
use hexadecimal::Hex;
use ledger::Ledger;
use node::types::{Line, Node};
use node::{inner, leaf, padding, read_node, write_node};
use numbering::{Key, Leaf, Place};
use octets::BigEndian;
use refusal::cases::Refusal;
use row::Single;
use sheet::head;
use sheet::types::Sheet;
use std::alloc::{AllocError, Global};
use std::iter::{Zip, successors};
use std::ops::Range;
use std::{fs, io};
use stop::Stop;
use store::NodeStore;
use store::limits::Limits;
use tree::{leaf_count, tree_node};
use verify::check;

// A node's bytes: a digest and eight bytes of cents.
const WIDTH: usize = 40;

fn record_of(node: &Node<Single>) -> Result<[u8; WIDTH], Refusal> {
    let mut record = [0; WIDTH];
    write_node(node, &mut record)?;
    Ok(record)
}

// A flat store with room for the nodes of one closing.
fn node_store(heap: Global, ledger: &Ledger) -> anyhow::Result<Flat> {
    ensure!(ledger.depth <= 20, "the depth is over 20");
    let bound = 2 << ledger.depth;
    let limits = Limits {
        width: WIDTH,
        first: ledger.closing.0,
        last: ledger.closing.0,
        bound,
    };
    let memory = vec![in heap; 0; bound as usize * (WIDTH + 1)]?;
    ensure!(
        flat::measure(limits, memory.len()).is_ok(),
        "no store has these limits"
    );
    Ok(Flat::new(memory, limits))
}

// The nodes of a height from left to right: the number of each, and its place. Node n of a height with m nodes stands at
// place m + n.
fn level(depth: u32, height: u32) -> Zip<Range<u32>, Range<u32>> {
    let len = leaf_count(depth.saturating_sub(height));
    (0..len).zip(len..len.saturating_mul(2))
}

fn show_line(rt: &HostRuntime, n: usize, line: &Line<Single>) -> io::Result<()> {
    let customer = Hex(&line.customer);
    let salt = Hex(&line.salt);
    let [cents] = line.balance.cents;
    println!(rt; "line {n}: customer {customer}, salt {salt}, {cents} cents")
}

fn show_node(
    rt: &HostRuntime,
    name: &str,
    n: u32,
    place: u32,
    node: &Node<Single>,
) -> io::Result<()> {
    let digest = Hex(&node.digest);
    let [cents] = node.amount.cents;
    println!(rt; "  {name} {n}, place {place}: {digest}, {cents} cents")
}

fn show_lines(rt: &HostRuntime, ledger: &Ledger) -> io::Result<()> {
    let closing = ledger.closing.0;
    let depth = ledger.depth;
    println!(rt; "The ledger of closing {closing}, in a tree of depth {depth}.")?;
    for (n, line) in ledger.lines.iter().enumerate() {
        show_line(rt, n, line)?;
    }
    println!(rt)
}

// A ledger, and the store that its tree is kept in.
#[derive(Drop)]
struct Tour<'a> {
    rt: &'a HostRuntime,
    ledger: Ledger,
    store: Flat,
}

impl Tour<'_> {
    fn key(&self, place: u32) -> Key {
        Key {
            closing: self.ledger.closing,
            place: Place(place),
        }
    }

    fn keep(&mut self, place: u32, node: &Node<Single>) -> Result<(), Refusal> {
        let key = self.key(place);
        self.store.put(key, &record_of(node)?)
    }

    // What is kept at a place.
    fn record(&mut self, place: u32) -> Result<[u8; WIDTH], Refusal> {
        let key = self.key(place);
        let mut record = [0; WIDTH];
        if !self.store.get(key, &mut record)? {
            return Err(Refusal::NotStanding);
        }
        Ok(record)
    }

    fn node(&mut self, place: u32) -> Result<Node<Single>, Refusal> {
        read_node(&self.record(place)?)
    }

    fn leaf_node(&self, n: u32) -> (&'static str, Node<Single>) {
        let closing = self.ledger.closing;
        match self.ledger.lines.get(n as usize) {
            Some(line) => ("leaf", leaf(&Sha256, closing, line)),
            None => ("padding", padding(&Sha256, closing, Leaf(n))),
        }
    }

    // The node over the two below a place, which are fetched from the store.
    fn inner_node(&mut self, place: u32) -> Result<Node<Single>, Refusal> {
        let left = self.node(place.saturating_mul(2))?;
        let right = self.node(place.saturating_mul(2) | 1)?;
        inner(&Sha256, &left, &right)
    }

    // Makes, shows and keeps the nodes of a height.
    fn keep_level(&mut self, height: u32) -> Result<(), Stop> {
        println!(self.rt; "height {height}:")?;
        for (n, place) in level(self.ledger.depth, height) {
            let (name, node) = if height == 0 {
                self.leaf_node(n)
            } else {
                ("node", self.inner_node(place)?)
            };
            show_node(self.rt, name, n, place, &node)?;
            self.keep(place, &node)?;
        }
        Ok(())
    }

    fn build_tree(&mut self) -> Result<(), Stop> {
        println!(self.rt;
            "The tree, from the leaves up. Each node is the SHA-256 of its text, and the sum below it,"
        )?;
        println!(self.rt; "and is kept in a store under the closing and its place.")?;
        for height in 0..=self.ledger.depth {
            self.keep_level(height)?;
        }
        let held = self.store.held(self.ledger.closing)?;
        let room = self.store.room();
        println!(self.rt;
            "The store holds {held} nodes of this closing, and has room for {room} more."
        )?;
        println!(self.rt)?;
        Ok(())
    }

    // The root, from the lines alone.
    fn root_again(&self) -> Result<Node<Single>, Refusal> {
        let ledger = &self.ledger;
        let depth = ledger.depth;
        tree_node(&Sha256, ledger.closing, depth, &ledger.lines, depth, 0)
    }

    fn show_notice(&mut self) -> Result<(), Stop> {
        let root = self.node(1)?;
        if root.digest != self.root_again()?.digest {
            return Err(anyhow!("the store has another root than the ledger").into());
        }
        let digest = Hex(&root.digest);
        let [cents] = root.amount.cents;
        println!(self.rt; "For the notice, from the store and once more from the lines alone:")?;
        println!(self.rt; "  root  {digest}")?;
        println!(self.rt; "  total {cents} cents")?;
        Ok(())
    }

    // The depth as a sheet and a file say it.
    fn depth_byte(&self) -> anyhow::Result<u8> {
        Ok(u8::try_from(self.ledger.depth)?)
    }

    fn written_sheet(&mut self) -> Result<[u8; 47], Stop> {
        let sheet = Sheet {
            closing: self.ledger.closing,
            depth: self.depth_byte()?,
            root: self.node(1)?,
        };
        let mut bytes = [0; 47];
        let n = sheet::write(&Sha256, &sheet, &mut bytes)?;
        let shown = Hex(&bytes);
        println!(self.rt; "The sheet, {n} bytes:")?;
        println!(self.rt; "  {shown}")?;
        println!(self.rt)?;
        Ok(bytes)
    }

    // The front of a line's file: head, leaf number, customer number, salt and balance.
    fn file_front(&self, n: u32, line: &Line<Single>) -> anyhow::Result<Vec<u8>> {
        let [cents] = line.balance.cents;
        let head = head::<Single, Sha256>(&Sha256, self.ledger.closing, self.depth_byte()?);
        let mut file = Vec::new(self.rt.alloc());
        file.extend_from_slice(&head)?;
        file.extend_from_slice(&n.be_bytes())?;
        file.extend_from_slice(&line.customer)?;
        file.extend_from_slice(&line.salt)?;
        file.extend_from_slice(&cents.be_bytes())?;
        Ok(file)
    }

    // The file of line n: the nodes beside its path come from the store, from the leaf up.
    fn line_file(&mut self, n: u32) -> Result<Vec<u8>, Stop> {
        let Some(line) = self.ledger.lines.get(n as usize) else {
            return Err(anyhow!("the ledger has no line {n}").into());
        };
        let mut file = self.file_front(n, line)?;
        let depth = self.ledger.depth;
        let leaf = leaf_count(depth) | n;
        for place in successors(Some(leaf), |place| Some(*place / 2)).take(depth as usize) {
            file.extend_from_slice(&self.record(place ^ 1)?)?;
        }
        Ok(file)
    }

    // The file of line 1, from the store to the customer's check.
    fn show_file(&mut self, sheet: &[u8]) -> Result<(), Stop> {
        let file = self.line_file(1)?;
        show_fields(self.rt, self.ledger.depth, &file)?;
        println!(self.rt; "The customer's check of it under the sheet:")?;
        show_check(self.rt, "as issued", sheet, &file)?;
        damage(self.rt, sheet, &file)?;
        Ok(())
    }
}

fn show_field(rt: &HostRuntime, found: Found) -> io::Result<()> {
    let name = found.field.name();
    let offset = found.offset;
    let part = Hex(found.field.part());
    println!(rt; "  {name} at {offset}: {part}")
}

fn show_fields(rt: &HostRuntime, depth: u32, file: &[u8]) -> io::Result<()> {
    let len = file.len();
    println!(rt; "The file of line 1, {len} bytes, by its fields:")?;
    for found in Fields::new::<Single>(file, depth) {
        show_field(rt, found)?;
    }
    Ok(())
}

// Checks a file under the sheet, as a customer would, and says what came of it.
fn show_check(rt: &HostRuntime, what: &str, sheet: &[u8], file: &[u8]) -> io::Result<()> {
    match check::<Single, Sha256>(&Sha256, sheet, file) {
        Ok(Place(place)) => println!(rt; "  {what}: passes, at place {place}"),
        Err(refusal) => println!(rt; "  {what}: {refusal}"),
    }
}

// A copy with one byte changed.
fn with_byte(heap: Global, file: &[u8], at: usize) -> Result<Vec<u8>, AllocError> {
    let mut copy = Vec::from_slice(heap, file)?;
    if let Some(byte) = copy.get_mut(at) {
        *byte = byte.wrapping_add(1);
    }
    Ok(copy)
}

// A copy with its first two steps swapped.
fn with_steps_swapped(heap: Global, file: &[u8]) -> anyhow::Result<Vec<u8>> {
    let mut copy = Vec::from_slice(heap, file)?;
    ensure!(copy.len() >= 131, "the file has fewer than two steps");
    copy[51..131].rotate_left(WIDTH);
    Ok(copy)
}

fn damage(rt: &HostRuntime, sheet: &[u8], file: &[u8]) -> anyhow::Result<()> {
    let heap = rt.alloc();
    let richer = with_byte(heap, file, 50)?;
    show_check(rt, "a cent more", sheet, &richer)?;
    let resalted = with_byte(heap, file, 27)?;
    show_check(rt, "another salt", sheet, &resalted)?;
    let swapped = with_steps_swapped(heap, file)?;
    show_check(rt, "two steps swapped", sheet, &swapped)?;
    show_check(rt, "cut in half", sheet, &file[..file.len() / 2])?;
    Ok(())
}

fn run(rt: &HostRuntime) -> Result<(), Stop> {
    let text = fs::read_to_string(rt, "ledger.txt")?;
    let ledger = Ledger::read(rt.alloc(), &text)?;
    show_lines(rt, &ledger)?;
    let store = node_store(rt.alloc(), &ledger)?;
    let mut tour = Tour { rt, ledger, store };
    tour.build_tree()?;
    tour.show_notice()?;
    let sheet = tour.written_sheet()?;
    tour.show_file(&sheet)
}

fn main(rt: HostRuntime) -> anyhow::Result<()> {
    match run(&rt) {
        Ok(()) => Ok(()),
        Err(Stop::Failed(error)) => Err(error),
        Err(Stop::Refused(refusal)) => {
            println!(rt; "{refusal}")?;
            Err(anyhow!("a call was refused"))
        }
    }
}
