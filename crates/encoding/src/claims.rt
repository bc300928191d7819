// The claim: its word, and the ends of a range.
ghost use Rattle.std.specs.Prelude.{◌≡◌, ◌+◌, get_or};
ghost use Rattle.grammar.specs.Tree.{End as TreeEnd, Claim};
ghost use Rattle.grammar.specs.Certificate.{claim_cell, of_claim};
ghost use Rattle.grammar.specs.Contents.{end_cell};
ghost use Rattle.encoding.specs.Encodes.{EncodesEnd, EncodesClaim};
ghost use Rattle.encoding.specs.Claims.{end_says, is_infeas, end_in};

use crate::Certificate;
use arithmetic::Fraction;
use tables::words;

impl<'a> Certificate<'a> {
    // Whether the claim is `infeas`.
    pub fn is_infeas(self) -> bool
        ensures { (c : Claim) → get_or self.entry.index.now self.entry.header.claim 0 ≡ claim_cell (of_claim c).0 → result ≡ is_infeas c }
    {
        tables::cell_at(self.index, self.header.claim) == words::INFEAS
    }

    // The end whose cell stands so many after the claim's word; if it is finite, its value has the number so many after the first.
    fn end_at(self, offset: usize, before: usize) -> Option<Fraction>
        ensures { (e : TreeEnd) → get_or self.entry.index.now (self.entry.header.claim + offset) 0 ≡ end_cell e → EncodesEnd self.entry.values.now (self.entry.header.ends + before) e → end_says result ≡ e }
    {
        if tables::cell_from(self.index, self.header.claim, offset) == words::INFINITE {
            return None;
        }
        Some(tables::value_from(self.values, self.header.ends, before))
    }

    // The upper or the lower end of the claim, if it is finite; `infeas` has none.
    #[tactic(auto, using(crate::proofs::ClaimsLaws::claim_word))]
    pub fn end(self, upper: bool) -> Option<Fraction>
        ensures { (c : Claim) → EncodesClaim self.entry.index.now self.entry.values.now self.entry.header.claim self.entry.header.ends c → end_says result ≡ end_in upper c }
    {
        if self.is_infeas() {
            return None;
        }
        if upper {
            let before = tables::cell_from(self.index, self.header.claim, 1);
            self.end_at(2, before)
        } else {
            self.end_at(1, 0)
        }
    }
}
