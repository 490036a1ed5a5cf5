// The codes of a row under a base term, by the ranks and values of a block's lanes.
ghost use Rattle.std.specs.Prelude.{◌≡◌, ◌+◌, ◌*◌, ◌≤◌, length};
ghost use Rattle.model.specs.declared.BaseTerm.TheVariants.{Explicit};
ghost use Rattle.terms.specs.Places.{Ends};
ghost use Rattle.blocks.specs.Base.{BaseAsked, BaseCoded, places_code, Against};
ghost use Rattle.blocks.specs.Props.{prepared};

use lanes::vetted::base::{order_lanes, place_lanes, ranked_lanes};
use model::BaseTerm;
use terms::vetted::places::leads;
use terms::vetted::run::Run;

// A row and a block under a base term, which is a record with its values. The row has a rank and a value; the lanes' ranks
// stand from `ranks_at` on, their values from `values_at` on.
#[derive(Clone, Copy)]
pub struct BaseBlock<'a> {
    pub run: Run<'a>,
    pub reach: &'a [[bool; 32]],
    pub base: BaseTerm,
    pub ranks: &'a [i32],
    pub ranks_at: usize,
    pub rank: i32,
    pub values: &'a [i32],
    pub values_at: usize,
    pub value: i32,
    pub ghost asked: { BaseAsked run.of.table.now reach.now run.k run.e base rank value } by { Prim.hlevel prepared },
    pub ghost ranks_end: { ranks_at + 64 ≤ length ranks.now },
    pub ghost values_end: { values_at + 64 ≤ length values.now },
}

impl BaseBlock<'_> {
    // The codes of the lanes, which go where the term's record has its 64. Inlined, so that the row and the block are not laid
    // out in memory for each record.
    #[inline(always)]
    pub fn base_codes(&self, codes: &mut [u8])
        requires { self.now.run.k * 64 + 64 ≤ length codes.old }
        ensures { BaseCoded self.now.run.of.table.now self.now.run.k self.now.run.e self.now.base
            self.now.ranks.now self.now.ranks_at self.now.values.now self.now.values_at self.now.value codes.old codes.new }
    {
        let a = (self.run.k as usize) * 64;
        match self.base {
            BaseTerm::Lowest | BaseTerm::Highest => order_lanes(
                self.ranks,
                self.ranks_at,
                self.rank,
                codes,
                a,
                64,
            ),
            BaseTerm::Explicit => self.explicit_codes(codes),
            BaseTerm::Around(_)
            | BaseTerm::Between(_, _)
            | BaseTerm::Pos
            | BaseTerm::Neg
            | BaseTerm::PosNeg
            | BaseTerm::PosPos
            | BaseTerm::Any => ranked_lanes(
                self.ranks,
                self.ranks_at,
                self.rank,
                self.values,
                self.values_at,
                self.value,
                codes,
                a,
                64,
            ),
        }
    }

    // EXPLICIT: by places among the ends of the edges.
    fn explicit_codes(&self, codes: &mut [u8])
        requires explicit { self.now.base ≡ Explicit }
        requires room { self.now.run.k * 64 + 64 ≤ length codes.old }
        ensures { BaseCoded self.now.run.of.table.now self.now.run.k self.now.run.e self.now.base
            self.now.ranks.now self.now.ranks_at self.now.values.now self.now.values_at self.now.value codes.old codes.new }
    {
        let first = 2 * (self.run.k as usize) + 2;
        let to = self.against(first + (self.rank as usize));
        place_lanes(
            &to,
            self.ranks,
            self.ranks_at,
            self.values,
            self.values_at,
            self.value,
            codes,
            (self.run.k as usize) * 64,
        );
    }

    // The code of place p against each place, from the first on.
    fn against(&self, p: usize) -> [u8; 33]
        requires explicit { self.now.base ≡ Explicit }
        requires place { Ends self.now.run.k self.now.run.e p }
        ensures { Against self.now.reach.now self.now.run.k self.now.run.e p (2 * self.now.run.e + 1) result }
    {
        let first = 2 * (self.run.k as usize) + 2;
        let last = 2 * (self.run.e as usize);
        let mut to = [3u8; 33];
        for q in first..last + 1 {
            to[q - first] = self.place_code(p, q);
        }
        to
    }

    // The code of place p against place q.
    // As it is: a code is a byte, of which crate lanes writes 64 at once: no plainer as an enum.
    #[tactic(auto, unfolding(crate::specs::Base::places_code, laws::specs::ValueCodes::tests_code))]
    fn place_code(&self, p: usize, q: usize) -> u8
        requires explicit { self.now.base ≡ Explicit }
        requires place { Ends self.now.run.k self.now.run.e p }
        requires other { Ends self.now.run.k self.now.run.e q }
        ensures { result ≡ places_code self.now.reach.now self.now.run.k self.now.run.e p q }
    {
        let k = self.run.k;
        let e = self.run.e;
        if leads(self.reach, k, e, q, p) {
            1
        } else if leads(self.reach, k, e, p, q) {
            2
        } else {
            3
        }
    }
}
