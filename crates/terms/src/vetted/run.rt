// What is prepared of a table travels together: the table with its numbers, and a term with its values.
ghost use Rattle.std.specs.Prelude.{◌≡◌, ◌&&◌, ◌<◌, eqb};
ghost use Rattle.model.specs.Search.{any_in};
ghost use Rattle.model.specs.Bytes.{eq_z};
ghost use Rattle.model.specs.Record.{p_at, u_at, record_at};
ghost use Rattle.model.specs.Better.{in_role};
ghost use Rattle.laws.specs.Runs.{values_between};
ghost use Rattle.laws.specs.Ranks.{rank_pos, rank_neg, rank_pos_neg, rank_pos_pos};
ghost use Rattle.terms.specs.Run.{Values};
ghost use Rattle.terms.specs.Prepared.{number_at, Numbers, EndPlace};

use model::{Record, Role};
use records::record::{kind_at, p_at, q_at, record_of};

// A table with the numbers of all its records: u of record i at 2 i, v at 2 i + 1.
#[derive(Clone, Copy)]
pub struct Numbered<'a> {
    pub table: &'a [u8],
    pub numbers: &'a [i32; 256],
    pub ghost numbered: { Numbers table.now numbers.now },
}

impl Numbered<'_> {
    // The number at place i.
    pub fn number(&self, i: usize) -> i32
        requires { i < 256 }
        ensures { result ≡ number_at self.now.table.now i }
    {
        self.numbers[i]
    }

    // Record k, with its numbers as they are prepared.
    pub fn record(&self, k: u8) -> Record
        requires { k < 128 }
        ensures { result ≡ record_at self.now.table.now k }
    {
        let at = 2 * (k as usize);
        record_of(
            kind_at(self.table, k),
            p_at(self.table, k),
            q_at(self.table, k),
            self.numbers[at],
            self.numbers[at + 1],
        )
    }
}

// Term k with its values, the records from k + 1 to before e.
#[derive(Clone, Copy)]
pub struct Run<'a> {
    pub of: Numbered<'a>,
    pub k: u8,
    pub e: u8,
    pub ghost values: { Values of.table.now k e },
}

impl Run<'_> {
    // Whether x stands among the values in that role.
    pub fn in_role(&self, role: u8, x: i32) -> bool
        ensures { result ≡ in_role role (values_between self.now.of.table.now self.now.k self.now.e) x }
    {
        (self.k + 1..self.e).any(|i| self.is_value(i, role, x))
    }

    // Whether value record i has that role and the number x.
    fn is_value(&self, i: u8, role: u8, x: i32) -> bool
        requires { i < 128 }
        ensures { result ≡ (eqb (p_at self.now.of.table.now i) role && eq_z x (u_at self.now.of.table.now i)) }
    {
        (p_at(self.of.table, i) == role) & (x == self.of.numbers[2 * (i as usize)])
    }

    // Whether there is a value in that role.
    pub fn has_role(&self, role: u8) -> bool
        ensures { result ≡ any_in (values_between self.now.of.table.now self.now.k self.now.e) (λ a. eqb a.role role) }
    {
        (self.k + 1..self.e).any(|i| p_at(self.of.table, i) == role)
    }

    // The first place of x among the ends of the edges, as a place of `numbers`; 2 e where x is in no edge.
    // As it is: 2 e for none is no plainer as an Option. It is the place past the last one of the ends.
    pub fn end_place(&self, x: i32) -> usize
        ensures { EndPlace self.now.of.table.now self.now.k self.now.e x result }
    {
        let last = 2 * (self.e as usize);
        (2 * (self.k as usize) + 2..last)
            .find(|&i| self.of.number(i) == x)
            .unwrap_or(last)
    }

    // The class of a number: the lower is better. POS: favourites 0, others 1.
    #[tactic(auto, unfolding(laws::specs::Ranks::rank_pos))]
    pub fn class_pos(&self, x: i32) -> u8
        ensures { result ≡ rank_pos (values_between self.now.of.table.now self.now.k self.now.e) x }
    {
        if self.in_role(Role::Favourite as u8, x) {
            0
        } else {
            1
        }
    }

    // NEG: others 0, disliked 1.
    #[tactic(auto, unfolding(laws::specs::Ranks::rank_neg))]
    pub fn class_neg(&self, x: i32) -> u8
        ensures { result ≡ rank_neg (values_between self.now.of.table.now self.now.k self.now.e) x }
    {
        if self.in_role(Role::Disliked as u8, x) {
            1
        } else {
            0
        }
    }

    // POS/NEG: favourites 0, others 1, disliked 2.
    #[tactic(auto, unfolding(laws::specs::Ranks::rank_pos_neg))]
    pub fn class_pos_neg(&self, x: i32) -> u8
        ensures { result ≡ rank_pos_neg (values_between self.now.of.table.now self.now.k self.now.e) x }
    {
        if self.in_role(Role::Favourite as u8, x) {
            0
        } else if self.in_role(Role::Disliked as u8, x) {
            2
        } else {
            1
        }
    }

    // POS/POS: favourites 0, second choices 1, others 2.
    #[tactic(auto, unfolding(laws::specs::Ranks::rank_pos_pos))]
    pub fn class_pos_pos(&self, x: i32) -> u8
        ensures { result ≡ rank_pos_pos (values_between self.now.of.table.now self.now.k self.now.e) x }
    {
        if self.in_role(Role::Favourite as u8, x) {
            0
        } else if self.in_role(Role::SecondChoice as u8, x) {
            1
        } else {
            2
        }
    }
}
