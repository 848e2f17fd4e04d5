//! The custodian: closings from opening to withdrawing, over any kind of amount, any digest and any two node stores.
//!
//! States are types and move: opening gives an open `Ledger`, closing or abandoning it gives the `Custodian` back, and a ledger
//! cannot be let go. Every call's contract says its answer, and the state afterwards, by the definitions in `closing`:
//! `Holds` and `HoldsOpen` tie the custodian's fields and the meanings of its stores to that state. How stores lie in
//! memory is not known here; a change of a text or a layout is made below.
#![tactic(auto)]

ghost use Rattle.std.specs.Prelude.{◌≡◌, ℕ, ◌+◌, ◌-◌, ◌^◌, ◌<◌, ◌≤◌, true, not, ◌&&◌, ◌||◌, List, [], ◌∷◌, ◌++◌, length, take, is_some, IfErr, Some, None, MatchOption, MatchResult, OnErr, OnOk, ◌≢◌, nat_le, nat_lt};
ghost use Rattle.refusal.specs.Tables.{Answers};
ghost use Rattle.store.specs.Meaning.{Meaning, in_span};
ghost use Rattle.store.specs.Counts.{held};
ghost use Rattle.store.specs.Calls.{put_refusal, Cleared, Put, Refused};
ghost use Rattle.tree.specs.Trees.{balances_total};
ghost use Rattle.node.specs.Texts.{node_bytes, leaf_node, leaf_text};
ghost use Rattle.node.specs.Meant.{line_of};
ghost use Rattle.closing.specs.Closings.{State, new as new_state, stands as stands_under, Open, Enter, Close, Abandon, Withdraw, Write, Issue, Opened, Entered, Withdrawn, Wrote, ledger_of, line as line_said, open_refusal, enter_refusal, answer, next};
ghost use Rattle.client.specs.Suits.{suits as suits_tree};
ghost use Rattle.closing.specs.Standings.{StandingsHold};
ghost use Rattle.closing.specs.Accounts.{LinesAccount};
ghost use Rattle.custodian.specs.Keeping.{told};
ghost use Rattle.custodian.specs.States.{Holds, HoldsOpen, SameStores, ClearedBoth};

use amount::Amount;
use client::{forget, keep, suits};
use digest::Digest;
use grow::{grow, put_node};
use node::types::Line;
use node::{leaf, leaf_text};
use numbering::{Closing, Key, Leaf, Place};
use press::{write_file, write_sheet};
use refusal::cases::Refusal;
use roll::Roll;
use roll::types::Stand;
use std::marker::PhantomData;
use store::NodeStore;
use tree::{bad_limits, leaf_count};

// A custodian with no ledger open.
pub struct Custodian<A, D, N, L> {
    digest: D,
    nodes: N,
    leaves: L,
    roll: Roll,
    kind: PhantomData<A>,
}

// A custodian with a ledger open: what will stand once it is closed, and the lines' joint total.
pub struct Ledger<A, D, N, L> {
    of: Custodian<A, D, N, L>,
    stand: Stand,
    total: A,
}

// The custodian as it was, where it does not open a closing, and why.
pub struct Declined<A, D, N, L> {
    pub back: Custodian<A, D, N, L>,
    pub why: Refusal,
}

// Whether a store can take so many records under a closing, once that is cleared.
fn has_room<S: NodeStore>(store: &S, closing: Closing, need: u32) -> bool
    ensures { in_span (S.meaning store.now) closing.0 ≡ true → result ≡ not (nat_lt ((S.meaning store.now).room + held (S.meaning store.now) closing.0) need) }
{
    let held = store.held(closing).unwrap_or(0);
    store.room().saturating_add(held as u64) >= need as u64
}

impl<A: Amount, D: Digest, N: NodeStore, L: NodeStore> Custodian<A, D, N, L> {
    // A new custodian: nothing stands and nothing is open, whatever its stores hold. Over every list of its calls two laws
    // hold: every file issued in a standing passes the check under the sheet written in it, and each closing has just the
    // lines that were entered between its opening and its closing.
    pub fn new(digest: D, nodes: N, leaves: L) -> Self
        ensures parts { (result.digest ≡ digest) × (result.nodes ≡ nodes) × (result.leaves ≡ leaves) }
        ensures is { Holds A.kind D.hash N.meaning L.meaning result (new_state (N.meaning nodes) (L.meaning leaves)) }
        ensures standings { StandingsHold }
        ensures lines { LinesAccount }
    {
        Custodian {
            digest,
            nodes,
            leaves,
            roll: Roll::new(),
            kind: PhantomData,
        }
    }

    // Gives back what it was made of.
    pub fn into_parts(self) -> (D, N, L)
        ensures { (result.0 ≡ self.digest) × (result.1 ≡ self.nodes) × (result.2 ≡ self.leaves) }
    {
        let Custodian {
            digest,
            nodes,
            leaves,
            roll: _,
            kind: _,
        } = self;
        (digest, nodes, leaves)
    }

    // Whether a closing stands.
    fn stands(&self, closing: Closing) -> bool
        ensures { (s : State) → Holds A.kind D.hash N.meaning L.meaning self.now s → result ≡ is_some (stands_under closing.0 s.standing) }
    {
        self.roll.find(closing).is_some()
    }

    // Whether eight closings stand.
    fn is_full(&self) -> bool
        ensures { (s : State) → Holds A.kind D.hash N.meaning L.meaning self.now s → result ≡ nat_le 8 (length s.standing) }
    {
        self.roll.len() >= 8
    }

    // Whether both stores suit a closing at a depth.
    fn suit(&self, closing: Closing, depth: u32) -> bool
        ensures { result ≡ suits_tree (N.meaning self.now.nodes) (32 + A.kind.width) closing.0 depth && suits_tree (L.meaning self.now.leaves) (37 + A.kind.width) closing.0 depth }
    {
        let width = A::width();
        suits(&self.nodes, 32 + width, closing, depth)
            && suits(&self.leaves, 37 + width, closing, depth)
    }

    // Whether either store has too little room for a closing at a depth.
    fn no_room(&self, closing: Closing, depth: u32) -> bool
        requires { depth ≤ 20 }
        ensures { in_span (N.meaning self.now.nodes) closing.0 ≡ true → in_span (L.meaning self.now.leaves) closing.0 ≡ true
            → result ≡ (nat_lt ((N.meaning self.now.nodes).room + held (N.meaning self.now.nodes) closing.0) (2 ^ (depth + 1) - 1)
            || nat_lt ((L.meaning self.now.leaves).room + held (L.meaning self.now.leaves) closing.0) (2 ^ depth)) }
    {
        let leaves = leaf_count(depth);
        !has_room(&self.nodes, closing, 2 * leaves - 1) || !has_room(&self.leaves, closing, leaves)
    }

    // Whether a closing can be opened, by the table of refusals.
    fn admit(&self, closing: Closing, depth: u32) -> Result<(), Refusal>
        ensures deep { OnOk result (depth ≤ 20) }
        ensures table { (s : State) → Holds A.kind D.hash N.meaning L.meaning self.now s
            → Answers result (open_refusal A.kind s closing.0 depth) (λ _. Unit {0}) }
    {
        if bad_limits(closing, depth) {
            return Err(Refusal::BadLimits);
        }
        if self.stands(closing) {
            return Err(Refusal::AlreadyStands);
        }
        if self.is_full() {
            return Err(Refusal::EightStand);
        }
        if !self.suit(closing, depth) {
            return Err(Refusal::StoreUnsuited);
        }
        if self.no_room(closing, depth) {
            return Err(Refusal::Full);
        }
        Ok(())
    }

    // Opens a closing at a depth: clears it in both stores, and no other. Refused by the first condition of its table; then the
    // custodian comes back, and its stores mean what they meant.
    pub fn open(
        self,
        closing: Closing,
        depth: u32,
    ) -> Result<Ledger<A, D, N, L>, Declined<A, D, N, L>>
        ensures digest { MatchResult result (λ l. l.of.digest ≡ self.digest) (λ d. d.back.digest ≡ self.digest) }
        ensures refused { IfErr result (λ d. SameStores N.meaning L.meaning self d.back) }
        ensures answers { (s : State) → Holds A.kind D.hash N.meaning L.meaning self s → s.ledger ≡ None
            → told (λ _. Opened) (λ d. d.why) result ≡ answer A.kind (D.hash self.digest) s (Open closing.0 depth) }
        ensures opened { (s : State) → Holds A.kind D.hash N.meaning L.meaning self s → s.ledger ≡ None
            → MatchResult result (λ l. ClearedBoth N.meaning L.meaning self l.of closing.0
            × HoldsOpen A.kind A.meaning D.hash N.meaning L.meaning l (next A.kind s (Open closing.0 depth)))
            (λ d. Holds A.kind D.hash N.meaning L.meaning d.back (next A.kind s (Open closing.0 depth))) }
    {
        if let Err(why) = self.admit(closing, depth) {
            return Err(Declined { back: self, why });
        }
        let mut custodian = self;
        custodian.forget_both(closing);
        Ok(Ledger {
            of: custodian,
            stand: Stand {
                closing,
                depth: depth as u8,
                lines: 0,
            },
            total: A::zero(),
        })
    }

    // Forgets a closing in both stores.
    fn forget_both(&mut self, closing: Closing)
        ensures rest { (self.new.digest ≡ self.old.digest) × (self.new.roll ≡ self.old.roll) }
        ensures nodes { in_span (N.meaning self.old.nodes) closing.0 ≡ true → Cleared (N.meaning self.old.nodes) (N.meaning self.new.nodes) closing.0 }
        ensures leaves { in_span (L.meaning self.old.leaves) closing.0 ≡ true → Cleared (L.meaning self.old.leaves) (L.meaning self.new.leaves) closing.0 }
    {
        forget(&mut self.nodes, closing);
        forget(&mut self.leaves, closing);
    }

    // Writes the sheet of a closing that stands, and answers its length. What is written fills its own length and leaves the
    // rest of the buffer; a refusal leaves all of it.
    pub fn sheet(&mut self, closing: Closing, out: &mut [u8]) -> Result<usize, Refusal>
        ensures digest { self.new.digest ≡ self.old.digest }
        ensures same { SameStores N.meaning L.meaning self.old self.new }
        ensures refused { Refused result (out.new ≡ out.old) }
        ensures answers { (s : State) → Holds A.kind D.hash N.meaning L.meaning self.old s
            → told (λ n. Wrote n out.new) (λ why. why) result ≡ answer A.kind (D.hash self.old.digest) s (Write closing.0 out.old) }
        ensures stays { (s : State) → Holds A.kind D.hash N.meaning L.meaning self.old s → Holds A.kind D.hash N.meaning L.meaning self.new s }
    {
        let Some(stand) = self.roll.find(closing) else {
            return Err(Refusal::NotStanding);
        };
        write_sheet::<A, D, N>(&self.digest, &mut self.nodes, closing, stand.depth, out)
    }

    // Writes the file of a line of a closing that stands, by its leaf number, and answers its length.
    pub fn issue(&mut self, closing: Closing, leaf: Leaf, out: &mut [u8]) -> Result<usize, Refusal>
        ensures digest { self.new.digest ≡ self.old.digest }
        ensures same { SameStores N.meaning L.meaning self.old self.new }
        ensures refused { Refused result (out.new ≡ out.old) }
        ensures answers { (s : State) → Holds A.kind D.hash N.meaning L.meaning self.old s → s.ledger ≡ None
            → told (λ n. Wrote n out.new) (λ why. why) result ≡ answer A.kind (D.hash self.old.digest) s (Issue closing.0 leaf.0 out.old) }
        ensures stays { (s : State) → Holds A.kind D.hash N.meaning L.meaning self.old s → Holds A.kind D.hash N.meaning L.meaning self.new s }
    {
        let Some(stand) = self.roll.find(closing) else {
            return Err(Refusal::NotStanding);
        };
        if leaf.0 >= stand.lines {
            return Err(Refusal::NotStanding);
        }
        write_file::<A, D, N, L>(
            &self.digest,
            &mut self.nodes,
            &mut self.leaves,
            closing,
            stand.depth,
            leaf,
            out,
        )
    }

    // Puts the text and the node of a line at a place.
    fn put_line(&mut self, key: Key, line: &Line<A>)
        ensures rest { (self.new.digest ≡ self.old.digest) × (self.new.roll ≡ self.old.roll) }
        ensures node { put_refusal (N.meaning self.old.nodes) key.closing.0 key.place.0 (32 + A.kind.width) ≡ None
            → Put (N.meaning self.old.nodes) (N.meaning self.new.nodes) key.closing.0 key.place.0 (node_bytes A.kind (leaf_node A.kind (D.hash self.old.digest) key.closing.0 (line_of A.meaning line.now))) }
        ensures text { put_refusal (L.meaning self.old.leaves) key.closing.0 key.place.0 (37 + A.kind.width) ≡ None
            → Put (L.meaning self.old.leaves) (L.meaning self.new.leaves) key.closing.0 key.place.0 (leaf_text A.kind key.closing.0 (line_of A.meaning line.now)) }
    {
        let text = leaf_text(key.closing, line);
        keep(&mut self.leaves, key, text.as_slice());
        let node = leaf(&self.digest, key.closing, line);
        put_node(&mut self.nodes, key, &node);
    }

    // Withdraws a closing: clears it in both stores, and frees its line among the eight. Refused where it does not stand.
    pub fn withdraw(&mut self, closing: Closing) -> Result<(), Refusal>
        ensures digest { self.new.digest ≡ self.old.digest }
        ensures refused { OnErr result (SameStores N.meaning L.meaning self.old self.new) }
        ensures answers { (s : State) → Holds A.kind D.hash N.meaning L.meaning self.old s
            → told (λ _. Withdrawn) (λ why. why) result ≡ answer A.kind (D.hash self.old.digest) s (Withdraw closing.0) }
        ensures withdrawn { (s : State) → Holds A.kind D.hash N.meaning L.meaning self.old s
            → OnOk result (ClearedBoth N.meaning L.meaning self.old self.new closing.0)
            × Holds A.kind D.hash N.meaning L.meaning self.new (next A.kind s (Withdraw closing.0)) }
    {
        if !self.stands(closing) {
            return Err(Refusal::NotStanding);
        }
        self.forget_both(closing);
        self.roll.remove(closing);
        Ok(())
    }
}

impl<A: Amount, D: Digest, N: NodeStore, L: NodeStore> Ledger<A, D, N, L> {
    // Whether a line can be entered, by the table of refusals; answers the line and the joint total of all lines with it.
    fn admit_line(&self, customer: &[u8], salt: &[u8], balance: A) -> Result<(Line<A>, A), Refusal>
        ensures low { OnOk result ((self.now.stand.depth ≤ 20) × (self.now.stand.lines < 2 ^ self.now.stand.depth)) }
        ensures table { (s : State) → HoldsOpen A.kind A.meaning D.hash N.meaning L.meaning self.now s
            → Answers result (enter_refusal A.kind (ledger_of s) customer.now salt.now (A.meaning balance))
            (λ x. (line_of A.meaning x.0 ≡ line_said customer.now salt.now (A.meaning balance))
            × (A.meaning x.1 ≡ balances_total A.kind ((ledger_of s).lines ++ (line_said customer.now salt.now (A.meaning balance) ∷ [])))) }
    {
        let (Ok(customer), Ok(salt)) = (customer.try_into(), salt.try_into()) else {
            return Err(Refusal::BadIdentity);
        };
        if self.stand.lines >= leaf_count(self.stand.depth as u32) {
            return Err(Refusal::LeavesTaken);
        }
        let total = self.total.join(balance)?;
        let line = Line {
            customer,
            salt,
            balance,
        };
        Ok((line, total))
    }

    // Enters a line and answers its leaf number, the next from 0: its text goes to the leaf store and its node to the node
    // store, at its place. Refused by the first condition of its table; then nothing changes.
    pub fn enter(&mut self, customer: &[u8], salt: &[u8], balance: A) -> Result<Leaf, Refusal>
        ensures digest { self.new.of.digest ≡ self.old.of.digest }
        ensures refused { OnErr result (SameStores N.meaning L.meaning self.old.of self.new.of) }
        ensures answers { (s : State) → HoldsOpen A.kind A.meaning D.hash N.meaning L.meaning self.old s
            → told (λ n. Entered n.0) (λ why. why) result ≡ answer A.kind (D.hash self.old.of.digest) s (Enter customer.now salt.now (A.meaning balance)) }
        ensures entered { (s : State) → HoldsOpen A.kind A.meaning D.hash N.meaning L.meaning self.old s
            → HoldsOpen A.kind A.meaning D.hash N.meaning L.meaning self.new (next A.kind s (Enter customer.now salt.now (A.meaning balance))) }
    {
        let (line, total) = self.admit_line(customer, salt, balance)?;
        let number = self.stand.lines;
        let key = Key {
            closing: self.stand.closing,
            place: Place(leaf_count(self.stand.depth as u32) + number),
        };
        self.of.put_line(key, &line);
        self.stand.lines = number + 1;
        self.total = total;
        Ok(Leaf(number))
    }

    // Closes the ledger: pads the leaves left, writes every inner node, and makes the closing stand. It never refuses.
    pub fn close(self) -> Custodian<A, D, N, L>
        ensures digest { result.digest ≡ self.of.digest }
        ensures closed { (s : State) → HoldsOpen A.kind A.meaning D.hash N.meaning L.meaning self s
            → ((next A.kind s Close).ledger ≡ None) × Holds A.kind D.hash N.meaning L.meaning result (next A.kind s Close) }
        ensures others { (s : State) → HoldsOpen A.kind A.meaning D.hash N.meaning L.meaning self s → (d p : ℕ) → (d ≢ self.stand.closing.0) → (N.meaning result.nodes).find d p ≡ (N.meaning self.of.nodes).find d p }
        ensures leaves { result.leaves ≡ self.of.leaves }
    {
        let Ledger {
            mut of,
            stand,
            total: _,
        } = self;
        let Stand {
            closing,
            depth,
            lines,
        } = stand;
        grow::<A, D, N>(&of.digest, &mut of.nodes, closing, depth as u32, lines);
        of.roll.add(stand);
        of
    }

    // Abandons the ledger: clears its closing in both stores.
    pub fn abandon(self) -> Custodian<A, D, N, L>
        ensures digest { result.digest ≡ self.of.digest }
        ensures abandoned { (s : State) → HoldsOpen A.kind A.meaning D.hash N.meaning L.meaning self s
            → ((next A.kind s Abandon).ledger ≡ None) × ClearedBoth N.meaning L.meaning self.of result self.stand.closing.0
            × Holds A.kind D.hash N.meaning L.meaning result (next A.kind s Abandon) }
    {
        let Ledger {
            mut of,
            stand,
            total: _,
        } = self;
        of.forget_both(stand.closing);
        of
    }

    // Writes the sheet of a closing that stands, while this ledger is open: the custodian's own call, in the other state.
    pub fn sheet(&mut self, closing: Closing, out: &mut [u8]) -> Result<usize, Refusal>
        ensures digest { self.new.of.digest ≡ self.old.of.digest }
        ensures same { SameStores N.meaning L.meaning self.old.of self.new.of }
        ensures refused { Refused result (out.new ≡ out.old) }
        ensures answers { (s : State) → HoldsOpen A.kind A.meaning D.hash N.meaning L.meaning self.old s
            → told (λ n. Wrote n out.new) (λ why. why) result ≡ answer A.kind (D.hash self.old.of.digest) s (Write closing.0 out.old) }
        ensures stays { (s : State) → HoldsOpen A.kind A.meaning D.hash N.meaning L.meaning self.old s → HoldsOpen A.kind A.meaning D.hash N.meaning L.meaning self.new s }
    {
        self.of.sheet(closing, out)
    }

    // Withdraws a closing that stands, while this ledger is open: the custodian's own call, in the other state.
    pub fn withdraw(&mut self, closing: Closing) -> Result<(), Refusal>
        ensures digest { self.new.of.digest ≡ self.old.of.digest }
        ensures refused { OnErr result (SameStores N.meaning L.meaning self.old.of self.new.of) }
        ensures answers { (s : State) → HoldsOpen A.kind A.meaning D.hash N.meaning L.meaning self.old s
            → told (λ _. Withdrawn) (λ why. why) result ≡ answer A.kind (D.hash self.old.of.digest) s (Withdraw closing.0) }
        ensures withdrawn { (s : State) → HoldsOpen A.kind A.meaning D.hash N.meaning L.meaning self.old s
            → OnOk result (ClearedBoth N.meaning L.meaning self.old.of self.new.of closing.0)
            × HoldsOpen A.kind A.meaning D.hash N.meaning L.meaning self.new (next A.kind s (Withdraw closing.0)) }
    {
        self.of.withdraw(closing)
    }
}
