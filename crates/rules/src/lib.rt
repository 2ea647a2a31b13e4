// From a character to its cell: the nine rules. A local character set is a number, as in `scalars`: callers name any.
#![tactic(auto)]

ghost use Rattle.std.specs.Prelude.{◌≡◌, ◌+◌, ◌<◌};
ghost use Rattle.scalars.specs.Characters.{is_private};
ghost use Rattle.definitions.specs.Definitions.{table};
ghost use Rattle.rules.specs.Rules.{explicit_of, choose, passed};
ghost use Rattle.rules.specs.Internal.{last_cells, last_candidates, later_candidates, walk_answer, rules_by, lookup_by};

use pairs::Finder;

// A cell, the number of the rule that gave it, and the length of the alias walk. The number is the papers' own, which a
// page writes into a lent buffer, and 16 more behind rule 2.
#[derive(Clone, Copy)]
pub struct Answer {
    pub cell: u8,
    pub rule: u8,
    pub links: usize,
}

// The explicit cells of U+FFFD and of the question mark, by which rules 7 and 8 answer for every character alike.
#[derive(Clone, Copy)]
pub struct LastCells {
    pub replacement: Option<u8>,
    pub question: Option<u8>,
}

// What the rules go by: definitions, their local character set, and the cells of rules 7 and 8.
#[derive(Clone, Copy)]
pub struct Rules<T> {
    pub finder: T,
    pub charset: u32,
    pub last: LastCells,
}

impl<T: Finder> Rules<T> {
    // Asks for the cells of rules 7 and 8, once for all characters of a call.
    #[tactic(auto, using(crate::proofs::Choices::both_asked))]
    pub fn new(finder: T, charset: u32) -> Rules<T>
        ensures { result
            ≡ record { finder = finder; charset = charset; last = last_cells (table (T.definitions finder)) } }
    {
        let replacement = pairs::explicit_cell(&finder, 0xFFFD);
        let question = pairs::explicit_cell(&finder, 0x3F);
        Rules {
            finder,
            charset,
            last: LastCells {
                replacement,
                question,
            },
        }
    }

    // The explicit cell of a character that there may be.
    #[tactic(auto, using(basics::proofs::Tests::on_value))]
    fn explicit_of(&self, other: Option<u32>) -> Option<u8>
        ensures { result ≡ explicit_of (table (T.definitions self.now.finder)) other }
    {
        pairs::explicit_cell(&self.finder, other?)
    }

    // Rules 5 to 9.
    #[tactic(auto, using(crate::proofs::Choices::later), unfolding(crate::specs::Rules::choose))]
    fn later_rules(&self, c: u32, links: usize) -> Answer
        ensures { result ≡ choose 5 (later_candidates (table (T.definitions self.now.finder)) self.now.last c) links }
    {
        if let Some(cell) = self.explicit_of(scalars::base_of(c)) {
            return Answer {
                cell,
                rule: 5,
                links,
            };
        }
        if let Some(cell) = self.explicit_of(scalars::stand_in_of(c)) {
            return Answer {
                cell,
                rule: 6,
                links,
            };
        }
        last_rules(self.last, links)
    }

    // Rules 3 to 9, for a character as it stands after rule 2.
    #[tactic(auto, using(crate::proofs::Choices::rule_walked, crate::proofs::Choices::rule_later))]
    fn rules_from_3(&self, c: u32) -> Answer
        ensures { result ≡ rules_by (table (T.definitions self.now.finder)) self.now.last c }
    {
        let w = pairs::walk_from(&self.finder, c);
        match w.cell {
            None => self.later_rules(c, w.links),
            Some(cell) => walk_rules(cell, w.links),
        }
    }

    // The answer for a scalar value, by all the rules.
    #[tactic(auto, using(basics::proofs::Tests::chosen, crate::proofs::Choices::answering))]
    pub fn answer_of(&self, c: u32) -> Answer
        ensures { result ≡ lookup_by self.now.charset (table (T.definitions self.now.finder)) self.now.last c }
    {
        if scalars::is_braille(c) {
            return Answer {
                cell: (c % 256) as u8,
                rule: 1,
                links: 0,
            };
        }
        let others = self.rules_from_3(scalars::local_of(self.charset, c));
        passed_on(c, others)
    }
}

// Rules 7 to 9.
#[tactic(auto, using(basics::proofs::Tests::on_value), unfolding(crate::specs::Rules::choose))]
pub fn last_rules(last: LastCells, links: usize) -> Answer
    ensures { result ≡ choose 7 (last_candidates last) links }
{
    if let Some(cell) = last.replacement {
        return Answer {
            cell,
            rule: 7,
            links,
        };
    }
    if let Some(cell) = last.question {
        return Answer {
            cell,
            rule: 8,
            links,
        };
    }
    Answer {
        cell: 255,
        rule: 9,
        links,
    }
}

// Rules 3 and 4, for a walk with that cell at its end.
#[tactic(auto, using(basics::proofs::Tests::tests))]
pub fn walk_rules(cell: u8, links: usize) -> Answer
    ensures { result ≡ walk_answer cell links }
{
    let rule = if links == 0 { 3 } else { 4 };
    Answer { cell, rule, links }
}

// What the other rules answer, as rule 2 passes it on for the character `c`.
#[tactic(auto, using(crate::proofs::Choices::private_passed, crate::proofs::Choices::other_passed))]
pub fn passed_on(c: u32, others: Answer) -> Answer
    requires { others.rule + 16 < 256 }
    ensures { result ≡ passed (is_private c) others }
{
    if scalars::is_private(c) {
        return Answer {
            rule: others.rule + 16,
            ..others
        };
    }
    others
}
