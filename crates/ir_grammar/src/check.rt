//! Tests of a table: whether it fits the rules of its grammar.

ghost use Rattle.std.specs.Prelude.{◌≡◌, ℕ, suc, ◌+◌, ◌<◌, ◌≤◌, List, [], ◌∷◌, length, slice_get, slice_index_or, None, Some, IsTrue, IfSome, true, false};
ghost use Rattle.ir_grammar.specs.declared.grammar.Rule.{Rule};
ghost use Rattle.ir_grammar.specs.Grammar.{accepts};
ghost use Rattle.ir_grammar.specs.Table.{pick, may_follow, is_solid, cost_of, MayFollowPart, OpensIn, IsFineIn, AreKnownSymbols, RanksAreBelow, has_solid, height, FitsRule, IsPredictive, CanRead, Passes, closing_of, BeginsAtColumn, IsRuleOf, IsChoice};

use crate::grammar::{Grammar, Symbol};

/// What a column has to do.
#[derive(Clone, Copy)]
pub enum Target {
    /// To pick this rule for this part.
    ToPick(u32, usize),
    /// To follow this part.
    Before(u32),
}

impl Grammar {
    /// Whether the part may stand before the column.
    fn follows(&self, part: u32, column: usize) -> bool
        ensures { result ≡ may_follow (slice_get self.now.parts.items part) column }
    {
        match self.parts.get(part as usize) {
            None => false,
            Some(facts) => match facts.follows.get(column) {
                None => false,
                Some(yes) => *yes,
            },
        }
    }

    /// Whether the part has a token in each of its texts.
    fn is_solid(&self, part: u32) -> bool
        ensures { result ≡ is_solid (slice_get self.now.parts.items part) }
    {
        match self.parts.get(part as usize) {
            None => false,
            Some(facts) => facts.closing.is_none(),
        }
    }

    /// What the part adds to a height.
    fn cost(&self, part: u32) -> u32
        ensures { result ≡ cost_of (slice_get self.now.parts.items part) }
    {
        match self.parts.get(part as usize) {
            None => 0,
            Some(facts) => facts.cost,
        }
    }

    /// Whether the column does what it has to.
    fn passes(&self, target: Target, column: usize) -> bool
        ensures { IsTrue result → Passes self.now target column }
    {
        match target {
            Target::ToPick(part, rule) => self.pick(part, column) == Some(rule),
            Target::Before(part) => self.follows(part, column),
        }
    }

    /// Whether each column for which there is a rule passes.
    fn choices_pass(&self, choices: &[Option<usize>], target: Target) -> bool
        ensures { IsTrue result → (c p : ℕ) → slice_index_or choices.now c None ≡ Some p → Passes self.now target c }
    {
        for column in 0..choices.len() {
            if choices[column].is_some() && !self.passes(target, column) {
                return false;
            }
        }
        true
    }

    /// Whether each column at which the part has a rule passes.
    fn chosen_pass(&self, part: u32, target: Target) -> bool
        ensures { IsTrue result → (c p : ℕ) → pick self.now part c ≡ Some p → Passes self.now target c }
    {
        match self.parts.get(part as usize) {
            None => true,
            Some(facts) => self.choices_pass(&facts.choices, target),
        }
    }

    /// Whether each column that is marked passes.
    fn marked_pass(&self, follows: &[bool], target: Target) -> bool
        ensures { IsTrue result → (c : ℕ) → slice_index_or follows.now c false ≡ true → Passes self.now target c }
    {
        for column in 0..follows.len() {
            if follows[column] && !self.passes(target, column) {
                return false;
            }
        }
        true
    }

    /// Whether each column that the part may stand before passes.
    fn followers_pass(&self, part: u32, target: Target) -> bool
        ensures { IsTrue result → (c : ℕ) → may_follow (slice_get self.now.parts.items part) c ≡ true
            → Passes self.now target c }
    {
        match self.parts.get(part as usize) {
            None => true,
            Some(facts) => self.marked_pass(&facts.follows, target),
        }
    }

    /// Whether each column of a kind that is marked passes.
    fn kinds_pass(&self, kinds: &[bool], target: Target) -> bool
        ensures { IsTrue result → (k : ℕ) → slice_index_or kinds.now k false ≡ true → Passes self.now target (suc k) }
    {
        for kind in 0..kinds.len() {
            if kinds[kind] && !self.passes(target, kind + 1) {
                return false;
            }
        }
        true
    }

    /// Whether each column of a kind of the sign passes.
    fn accepted_pass(&self, sign: u32, target: Target) -> bool
        ensures { IsTrue result → (k : ℕ) → accepts self.now sign k ≡ true → Passes self.now target (suc k) }
    {
        match self.signs.get(sign as usize) {
            None => true,
            Some(class) => self.kinds_pass(&class.kinds, target),
        }
    }

    /// The first kind that is marked.
    fn first_kind(kinds: &[bool]) -> Option<usize>
        ensures { IfSome result (λ k. slice_index_or kinds.now k false ≡ true) }
    {
        for kind in 0..kinds.len() {
            if kinds[kind] {
                return Some(kind);
            }
        }
        None
    }

    /// Whether the sign stands for some kind of token.
    fn has_kind(&self, sign: u32) -> bool
        ensures { IsTrue result → (k : ℕ) × (accepts self.now sign k ≡ true) }
    {
        if self.signs.len() <= sign as usize {
            return false;
        }
        match Self::first_kind(&self.signs[sign as usize].kinds) {
            None => false,
            Some(_) => true,
        }
    }

    /// Whether each column passes at which the rest of a rule for the part may begin.
    fn openers_pass(&self, part: u32, body: &[Symbol], target: Target) -> bool
        ensures { IsTrue result → (c : ℕ) → OpensIn self.now part body.now c → Passes self.now target c }
    {
        for symbol in body {
            match symbol {
                Symbol::Act(_) => {}
                Symbol::Sign(sign) => return self.accepted_pass(*sign, target),
                Symbol::Part(first) => return self.chosen_pass(*first, target),
            }
        }
        self.followers_pass(part, target)
    }

    /// Whether each part in the rest of a rule may stand before what comes after it.
    fn is_fine_in(&self, part: u32, body: &[Symbol]) -> bool
        ensures { IsTrue result → IsFineIn self.now part body.now }
    {
        for i in 0..body.len() {
            match body[i] {
                Symbol::Act(_) => {}
                Symbol::Sign(_) => {}
                Symbol::Part(inner) => {
                    if !self.openers_pass(part, &body[i + 1..], Target::Before(inner)) {
                        return false;
                    }
                }
            }
        }
        true
    }

    /// Whether each sign has a kind, and each part is one of the grammar's.
    fn is_known(&self, body: &[Symbol]) -> bool
        ensures { IsTrue result → AreKnownSymbols self.now body.now }
    {
        for symbol in body {
            match symbol {
                Symbol::Act(_) => {}
                Symbol::Sign(sign) => {
                    if !self.has_kind(*sign) {
                        return false;
                    }
                }
                Symbol::Part(inner) => {
                    if self.parts.len() <= *inner as usize {
                        return false;
                    }
                }
            }
        }
        true
    }

    /// Whether each sign has a kind, and each part has a lower rank.
    fn is_below(&self, rank: u32, body: &[Symbol]) -> bool
        ensures { IsTrue result → RanksAreBelow self.now rank body.now }
    {
        for symbol in body {
            match symbol {
                Symbol::Act(_) => {}
                Symbol::Sign(sign) => {
                    if !self.has_kind(*sign) {
                        return false;
                    }
                }
                Symbol::Part(inner) => {
                    if self.parts.len() <= *inner as usize {
                        return false;
                    }
                    if self.parts[*inner as usize].rank >= rank {
                        return false;
                    }
                }
            }
        }
        true
    }

    /// Whether some symbol has a token in each of its texts.
    fn has_solid(&self, body: &[Symbol]) -> bool
        ensures { IsTrue result → has_solid self.now body.now ≡ true }
    {
        for symbol in body {
            match symbol {
                Symbol::Act(_) => {}
                Symbol::Sign(_) => return true,
                Symbol::Part(inner) => {
                    if self.is_solid(*inner) {
                        return true;
                    }
                }
            }
        }
        false
    }

    /// The height of the symbols, unless it is too large to count.
    fn height(&self, body: &[Symbol]) -> Option<u32>
        ensures { IfSome result (λ n. n ≡ height self.now body.now) }
    {
        let mut total: u32 = 0;
        for symbol in body {
            match symbol {
                Symbol::Act(_) => total = total.checked_add(1)?,
                Symbol::Sign(_) => return Some(total),
                Symbol::Part(inner) => {
                    total = total.checked_add(self.cost(*inner))?;
                    if self.is_solid(*inner) {
                        return Some(total);
                    }
                }
            }
        }
        Some(total)
    }

    /// Whether the table fits the rule.
    fn fits_rule(&self, p: usize) -> bool
        requires { p < length self.now.rules.items }
        ensures { IsTrue result → (r : Rule) → slice_get self.now.rules.items p ≡ Some r → FitsRule self.now p r }
    {
        let part = self.rules[p].part;
        let body = self.rules[p].body.as_slice();
        let Some(height) = self.height(body) else {
            return false;
        };
        height < self.cost(part)
            && self.is_known(body)
            && (!self.is_solid(part) || self.has_solid(body))
            && self.is_fine_in(part, body)
            && self.openers_pass(part, body, Target::ToPick(part, p))
    }

    /// Whether this is a rule of the part.
    fn is_rule_of(&self, rule: usize, part: u32) -> bool
        ensures { IsTrue result → IsRuleOf self.now part rule }
    {
        if self.rules.len() <= rule {
            return false;
        }
        self.rules[rule].part == part
    }

    /// Whether the first token of the symbol stands at the column.
    fn goes_on(&self, symbol: Symbol, column: usize) -> bool
        ensures { IsTrue result → (rest : List Symbol) → BeginsAtColumn self.now (symbol ∷ rest) column }
    {
        match symbol {
            Symbol::Act(_) => false,
            Symbol::Sign(sign) => column > 0 && self.accepts(sign, column - 1),
            Symbol::Part(inner) => match self.pick(inner, column) {
                None => false,
                Some(rule) => self.closing(inner) != Some(rule),
            },
        }
    }

    /// Whether the first token of the symbols stands at the column, with nothing done before it but that members begin.
    fn begins(&self, body: &[Symbol], column: usize) -> bool
        ensures { IsTrue result → BeginsAtColumn self.now body.now column }
    {
        for symbol in body {
            match symbol {
                Symbol::Act(action) => {
                    if !action.begins_member() {
                        return false;
                    }
                }
                _ => return self.goes_on(*symbol, column),
            }
        }
        false
    }

    /// Whether the rule may be what the table has for the part at the column.
    fn is_choice(&self, part: u32, column: usize, rule: usize) -> bool
        ensures { IsTrue result → IsChoice self.now part column rule }
    {
        if self.rules.len() <= rule {
            return false;
        }
        let found = &self.rules[rule];
        found.part == part && (self.closing(part) == Some(rule) || self.begins(&found.body, column))
    }

    /// Whether each of the choices may stand in the row of the part.
    fn choices_are_of(&self, choices: &[Option<usize>], part: u32) -> bool
        ensures { IsTrue result → (c p : ℕ) → slice_index_or choices.now c None ≡ Some p → IsChoice self.now part c p }
    {
        for column in 0..choices.len() {
            if let Some(rule) = choices[column] {
                if !self.is_choice(part, column, rule) {
                    return false;
                }
            }
        }
        true
    }

    /// Whether the closing rule of the part, if there is one, is a rule of the part.
    fn closing_is_of(&self, part: u32) -> bool
        ensures { IsTrue result → (p : ℕ) → closing_of (slice_get self.now.parts.items part) ≡ Some p
            → IsRuleOf self.now part p }
    {
        match self.closing(part) {
            None => true,
            Some(rule) => self.is_rule_of(rule, part),
        }
    }

    /// Whether this is a rule of the part with parts of lower ranks alone.
    fn has_shortest(&self, part: u32, rule: usize, rank: u32) -> bool
        ensures { IsTrue result → (r : Rule) × (slice_get self.now.rules.items rule ≡ Some r) × (r.part ≡ part)
            × RanksAreBelow self.now rank r.body.items }
    {
        if self.rules.len() <= rule {
            return false;
        }
        let found = &self.rules[rule];
        found.part == part && self.is_below(rank, &found.body)
    }

    /// Whether the table fits the rules, so that the next token decides each step. A yes is proved right; that the table
    /// which `Grammar::new` works out fits whenever one can isn't proved.
    fn is_predictive(&self) -> bool
        ensures { IsTrue result → IsPredictive self.now }
    {
        for p in 0..self.rules.len() {
            if !self.fits_rule(p) {
                return false;
            }
        }
        if self.parts.len() > u32::MAX as usize {
            return false;
        }
        for n in 0..self.parts.len() {
            let facts = &self.parts[n];
            if !self.choices_are_of(&facts.choices, n as u32) {
                return false;
            }
            if !self.closing_is_of(n as u32) {
                return false;
            }
            if !self.has_shortest(n as u32, facts.shortest, facts.rank) {
                return false;
            }
        }
        true
    }

    /// Whether texts of the part `root` can be read: the test that [`Grammar::read`] asks for. It takes a few passes
    /// over the rules, so make it once, at the start.
    pub fn can_read(&self, root: u32) -> bool
        ensures { IsTrue result → CanRead self.now root }
    {
        if !self.is_predictive() {
            return false;
        }
        let first = [Symbol::Part(root)];
        if !self.is_known(&first) {
            return false;
        }
        self.follows(root, 0)
    }
}
