//! The tokens of a text: where each begins, its kind, and which are spelled alike.
ghost use Rattle.std.specs.Prelude.{◌≡◌, ◌<◌, ◌^◌, ◌++◌, ◌∷◌, [], true, false, List, None, drop, replicate, OnOk, IfOk, IfSome, Some, length, map, ◌==◌, slice_get, slice_index, slice_index_or};
ghost use Rattle.ir_tokens.specs.declared.tokens.Token.{Token};
ghost use Rattle.ir_tokens.specs.Tokens.{IsToken};
ghost use Rattle.std.specs.Char.{is_whitespace};
ghost use Rattle.std.specs.Str.{chars};
ghost use Rattle.ir_characters.specs.Texts.{codes_of};
ghost use Rattle.ir_formats.specs.Rules.{texts, number_of, with_word};
ghost use Rattle.ir_formats.specs.Spelling.{known_texts, numbers_with, signs_with, NumbersWords, AreAllSigns, AreSigns, IsSignAt};
ghost use Rattle.ir_formats.specs.Words.{spellings, text_of, is_width, are_digits, is_special, is_quotation, shape_kind, is_spelled, has_kind, word_kind, kind_of, known_with, name_number, AreClassified};

use crate::rules::{SHAPES, Shape};
use indexmap::IndexSet;
use ir_characters::{Characters, Text};
use ir_hashing::TextKey;
use ir_tokens::numbers::Numbers;
use ir_tokens::scan::is_digit;
use ir_tokens::tokens::{Token, TokenKind, token_at};
use std::alloc::{AllocError, Global};

/// What the grammar knows of the tokens of a text.
#[derive(Drop)]
pub struct Classified {
    /// Where each token begins, and behind these where the text of the last one ends, in characters from 0.
    pub starts: Numbers,
    /// The kind of each token, as the grammar's signs take it.
    pub kinds: Vec<u32>,
    /// A number for each token that may be a word or a name: two have the same where they are spelled alike.
    pub names: Numbers,
}

impl Classified {
    /// No tokens, with room for so many.
    fn with_capacity(alloc: Global, tokens: usize) -> Result<Classified, AllocError>
        ensures { IfOk result (λ c. (c.starts ≡ []) × (c.kinds.items ≡ []) × (c.names ≡ [])) }
    {
        // The kinds come first, so that the starts and the names, which go together, lie side by side.
        let kinds = Vec::with_capacity(alloc, tokens)?;
        Ok(Classified {
            starts: Numbers::with_capacity(alloc, tokens)?,
            kinds,
            names: Numbers::with_capacity(alloc, tokens)?,
        })
    }

    /// Puts a token behind the others.
    fn add(&mut self, start: usize, kind: u32, name: usize) -> Result<(), AllocError>
        ensures starts { OnOk result (self.new.starts ≡ self.old.starts ++ start ∷ []) }
        ensures kinds { OnOk result (self.new.kinds.items ≡ self.old.kinds.items ++ kind ∷ []) }
        ensures names { OnOk result (self.new.names ≡ self.old.names ++ name ∷ []) }
    {
        self.starts.push(start)?;
        self.kinds.push(kind)?;
        self.names.push(name)?;
        Ok(())
    }

    /// The same tokens, of which the last one's text ends here.
    fn ended(mut self, end: usize) -> Result<Classified, AllocError>
        ensures starts { IfOk result (λ c. c.starts ≡ self.starts ++ end ∷ []) }
        ensures kinds { IfOk result (λ c. c.kinds ≡ self.kinds) }
        ensures names { IfOk result (λ c. c.names ≡ self.names) }
    {
        self.starts.push(end)?;
        Ok(self)
    }
}

/// The characters of the words of a grammar.
pub fn spelled(alloc: Global, words: &[&'static str]) -> Result<Vec<Characters>, AllocError>
    ensures { IfOk result (λ v. spellings v.items ≡ map chars (texts words.now)) }
{
    let mut all = Vec::new(alloc);
    for word in words {
        all.push(Characters::from_str(alloc, word)?)?;
    }
    Ok(all)
}

/// Whether a character is white space. Most of it are spaces, which are told by one comparison.
fn is_blank(c: char) -> bool
    ensures { result ≡ is_whitespace c }
{
    c == ' ' || c.is_whitespace()
}

/// Whether a character may stand behind a `\`.
fn is_special(c: char) -> bool
    ensures { result ≡ is_special c }
{
    c == '"' || c == '\\'
}

/// Whether digits, one or more, stand from this place to the end. Few names get here, so that what most of them need is
/// small enough to stand where it is asked for.
#[inline(never)]
fn are_digits(text: Text, from: usize) -> bool
    ensures { result ≡ are_digits (drop from (codes_of text.entry)) }
{
    for place in from..text.len() {
        if !is_digit(text.at(place)) {
            return false;
        }
    }
    from < text.len()
}

/// Whether these characters are `i`, `si` or `ui` with digits behind it.
#[inline(always)]
fn is_width(name: Text) -> bool
    ensures { result ≡ is_width (codes_of name.entry) }
{
    match (name.at(0), name.at(1)) {
        ('i', _) => are_digits(name, 1),
        ('s', 'i') => are_digits(name, 2),
        ('u', 'i') => are_digits(name, 2),
        _ => false,
    }
}

/// Whether each `\` of a text in quotes has a `"` or a `\` behind it.
#[inline(never)]
fn is_quotation(text: Text) -> bool
    ensures { result ≡ is_quotation (codes_of text.entry) }
{
    let mut is_escape = false;
    for place in 1..text.len() {
        let c = text.at(place);
        if is_escape {
            if !is_special(c) {
                return false;
            }
            is_escape = false;
        } else if c == '\\' {
            is_escape = true;
        } else if c == '"' {
            return true;
        }
    }
    text.len() > 0 && !is_escape
}

/// The kind of a token that is no word of the grammar.
#[inline(always)]
fn shape_of(kind: TokenKind, text: Text) -> u32
    ensures { result ≡ shape_kind kind (codes_of text.entry) }
{
    let shape = match kind {
        TokenKind::Name => {
            if is_width(text) {
                Shape::Width
            } else {
                Shape::Name
            }
        }
        TokenKind::Digits => Shape::Digits,
        TokenKind::Negative => Shape::Negative,
        TokenKind::Text => {
            if is_quotation(text) {
                Shape::Text
            } else {
                Shape::Other
            }
        }
        TokenKind::Mark => Shape::Mark,
        _ => Shape::Other,
    };
    shape.kind()
}

/// The characters of a token of the text.
fn text_of<'a>(chars: Text<'a>, token: Token) -> Text<'a>
    ensures { codes_of result ≡ text_of (codes_of chars.entry) token }
{
    if token.start <= token.end && token.end <= chars.len() {
        chars.slice(token.start, token.end)
    } else {
        Text::Bytes(&[])
    }
}

/// Whether the token may be a word of the grammar or a name.
fn is_spelled(kind: TokenKind) -> bool
    ensures { result ≡ is_spelled kind }
{
    match kind {
        TokenKind::Digits => false,
        TokenKind::Negative => false,
        TokenKind::Mark => false,
        TokenKind::Text => false,
        _ => true,
    }
}

/// Whether this is the number of a word, of so many, that has a kind of its own. Words past the last kind have none.
fn has_kind(number: usize, words: usize) -> bool
    ensures { result ≡ has_kind number words }
{
    number < words && number < u32::MAX as usize - SHAPES
}

/// The kind of a token that may be a word, whose text has this number among so many words.
#[inline]
fn spelled_kind(number: usize, words: usize, kind: TokenKind, text: Text) -> u32
    ensures { result ≡ word_kind number words (shape_kind kind (codes_of text.entry)) }
{
    if has_kind(number, words) {
        (number + SHAPES) as u32
    } else {
        shape_of(kind, text)
    }
}

/// The number of a text among those that came before, and whether it is a new one, which is added.
#[inline]
fn name_of<'a>(
    known: &mut IndexSet<Text<'a>, TextKey>,
    text: Text<'a>,
) -> Result<(usize, bool), AllocError>
    ensures known { OnOk result (map codes_of known.new.keys ≡ with_word (map codes_of known.old.keys)
        (codes_of text.entry)) }
    ensures number { IfOk result (λ r. r.0 ≡ number_of (map codes_of known.old.keys) (codes_of text.entry)) }
    ensures is_new { IfOk result (λ r. r.1 ≡
        (number_of (map codes_of known.old.keys) (codes_of text.entry) == length (map codes_of known.old.keys))) }
{
    Ok(known.insert_full(text)?)
}

/// Signs are below this.
const SIGNS: usize = 128;

/// How many guesses there are.
const GUESSES: usize = 1 << 14;

/// The code of the character so many places before a text's end, or of the first one of a shorter text.
fn code_before_end(text: Text, back: usize) -> usize
    ensures { result < 2 ^ 21 }
{
    text.at(text.len().saturating_sub(back)) as usize
}

/// The place of the guess at the number of a text. Names that end in numbers, as most do, have places of their own where
/// these differ in their last four digits.
fn guess_place(text: Text) -> usize {
    let code = match text {
        // Most names have four characters or more, and are met so often that they get the short way.
        Text::Bytes([.., thousands, hundreds, tens, ones]) => {
            1000 * *thousands as usize
                + 100 * *hundreds as usize
                + 10 * *tens as usize
                + *ones as usize
        }
        _ => 1000 * code_before_end(text, 4)
            + 100 * code_before_end(text, 3)
            + 10 * code_before_end(text, 2)
            + code_before_end(text, 1),
    };
    code % GUESSES
}

/// Whether this is the number of a text that is known.
#[inline]
fn has_number(known: &IndexSet<Text, TextKey>, text: Text, number: usize) -> bool
    ensures { result ≡ true → (number ≡ number_of (map codes_of known.now.keys) (codes_of text.entry))
        × (number < length (map codes_of known.now.keys)) }
{
    if number >= known.len() {
        return false;
    }
    match known.get_index(number) {
        Some(found) => text == *found,
        None => false,
    }
}

/// The number of a text that is known, where the guess at a place is right.
fn guessed(
    known: &IndexSet<Text, TextKey>,
    guesses: &[usize],
    place: usize,
    text: Text,
) -> Option<usize>
    ensures { IfSome result (λ name. (name ≡ number_of (map codes_of known.now.keys) (codes_of text.entry))
        × (name < length (map codes_of known.now.keys))) }
{
    let guess = *guesses.get(place)?;
    if has_number(known, text, guess) {
        Some(guess)
    } else {
        None
    }
}

/// A token of a text, with what the grammar knows of it.
#[derive(Clone, Copy)]
struct Classed {
    token: Token,
    /// Its kind, as the grammar's signs take it.
    kind: u32,
    /// The number of its text, 0 where it is no word and no name.
    name: usize,
}

/// Texts, each with a number. Those of the grammar's words come first.
#[derive(Drop)]
struct Spellings<'a> {
    /// The names of a text are found by a hash that the text keys, so that none can be chosen to be slow.
    known: IndexSet<Text<'a>, TextKey>,
    /// For each of the first known texts the number of the word that it is. Texts behind these are no words.
    words: Vec<usize>,
    /// The number that was looked up last at each place of guesses.
    guesses: Vec<usize>,
    /// For each character that is a sign and was met, the kind and the number of that sign.
    signs: Vec<Option<(u32, usize)>>,
}

impl<'a> Spellings<'a> {
    /// No texts, with room for so many words among so many texts.
    fn with_capacity(
        alloc: Global,
        key: TextKey,
        words: usize,
        texts: usize,
    ) -> Result<Self, AllocError>
        ensures known { IfOk result (λ s. s.known.keys ≡ []) }
        ensures words { IfOk result (λ s. s.words.items ≡ []) }
        ensures signs { IfOk result (λ s. s.signs.items ≡ replicate 128 None) }
    {
        Ok(Spellings {
            signs: vec![in alloc; None; SIGNS]?,
            guesses: vec![in alloc; 0usize; GUESSES]?,
            words: Vec::with_capacity(alloc, words)?,
            known: IndexSet::with_capacity_and_hasher(alloc, texts, key)?,
        })
    }

    /// Puts in the word with this number, unless its text is known.
    fn add_word(&mut self, number: usize, text: Text<'a>) -> Result<(), AllocError>
        ensures known { OnOk result (known_texts self.new ≡ with_word (known_texts self.old) (codes_of text.entry)) }
        ensures words { OnOk result (self.new.words.items
            ≡ numbers_with self.old.words.items number (known_texts self.old) (codes_of text.entry)) }
        ensures signs { self.new.signs ≡ self.old.signs }
    {
        let (_, is_new) = name_of(&mut self.known, text)?;
        if is_new {
            self.words.push(number)?;
        }
        Ok(())
    }

    /// The words of a grammar, with room for the names of so many tokens of the text that gives this key.
    fn new(
        alloc: Global,
        key: TextKey,
        words: &'a [Characters],
        tokens: usize,
    ) -> Result<Self, AllocError>
        ensures words { IfOk result (λ s. NumbersWords (spellings words.now) (known_texts s) s.words.items) }
        ensures signs { IfOk result (λ s. AreSigns (spellings words.now) (known_texts s) s.signs.items) }
    {
        // Most texts have more than eight tokens for each name.
        let texts = words.len() + tokens / 8;
        let mut spellings = Spellings::with_capacity(alloc, key, words.len(), texts)?;
        for (number, word) in words.iter().enumerate() {
            spellings.add_word(number, word.as_text())?;
        }
        Ok(spellings)
    }

    /// The number of the word that the text of this number is, or how many words there are where it is none.
    fn word(&self, name: usize, words: usize) -> usize
        ensures { result ≡ slice_index_or self.now.words.items name words }
    {
        self.words.get(name).copied().unwrap_or(words)
    }

    /// Guesses the number at the place from now on.
    fn note(&mut self, place: usize, name: usize)
        ensures known { self.new.known ≡ self.old.known }
        ensures words { self.new.words ≡ self.old.words }
        ensures signs { self.new.signs ≡ self.old.signs }
    {
        if place < self.guesses.len() {
            self.guesses[place] = name;
        }
    }

    /// The number of a text, which is a new one if it hasn't come before. Most texts that come often are guessed.
    fn number(&mut self, text: Text<'a>) -> Result<usize, AllocError>
        ensures known { OnOk result (known_texts self.new ≡ with_word (known_texts self.old) (codes_of text.entry)) }
        ensures words { self.new.words ≡ self.old.words }
        ensures signs { self.new.signs ≡ self.old.signs }
        ensures name { IfOk result (λ name. name ≡ number_of (known_texts self.old) (codes_of text.entry)) }
    {
        let place = guess_place(text);
        if let Some(name) = guessed(&self.known, &self.guesses, place, text) {
            return Ok(name);
        }
        let (name, _) = name_of(&mut self.known, text)?;
        self.note(place, name);
        Ok(name)
    }

    /// The kind and the number of the sign that is the token here, if it was met before.
    fn sign(&self, chars: Text, at: usize) -> Option<(u32, usize)>
        requires begins { at < length (codes_of chars) }
        requires signs { AreAllSigns self.now.signs.items }
        ensures { IfSome result (λ r. IsSignAt (codes_of chars.entry) at
            × (slice_get self.now.signs.items (slice_index (codes_of chars.entry) at) ≡ Some (Some r))) }
    {
        let sign = chars.at(at);
        let Some(Some(found)) = self.signs.get(sign as usize) else {
            return None;
        };
        // The longer token is `<in-memory>`.
        if sign == '<' && chars.at(at + 1) == 'i' {
            None
        } else {
            Some(*found)
        }
    }

    /// Keeps the kind and the number of a token, if it is a sign.
    fn keep(&mut self, token: TokenKind, kind: u32, name: usize)
        ensures known { known_texts self.new ≡ known_texts self.old }
        ensures words { self.new.words ≡ self.old.words }
        ensures signs { self.new.signs.items ≡ signs_with self.old.signs.items token (kind, name) }
    {
        if let TokenKind::Sign(sign) = token {
            if (sign as usize) < self.signs.len() {
                self.signs[sign as usize] = Some((kind, name));
            }
        }
    }

    /// The kind of a token and the number of its text, which is 0 for one that is no word and no name.
    fn token(
        &mut self,
        words: &[Characters],
        chars: Text<'a>,
        token: Token,
    ) -> Result<(u32, usize), AllocError>
        requires { NumbersWords (spellings words.now) (known_texts self.old) self.old.words.items }
        ensures known { OnOk result (known_texts self.new ≡ known_with (known_texts self.old)
            (codes_of chars.entry) token) }
        ensures words { self.new.words ≡ self.old.words }
        ensures signs { self.new.signs ≡ self.old.signs }
        ensures kind { IfOk result (λ r. r.0 ≡ kind_of (spellings words.now) (codes_of chars.entry) token) }
        ensures name { IfOk result (λ r. r.1 ≡ name_number (known_texts self.old) 0 (codes_of chars.entry) token) }
    {
        let text = text_of(chars, token);
        if !is_spelled(token.kind) {
            return Ok((shape_of(token.kind, text), 0));
        }
        let name = self.number(text)?;
        let word = self.word(name, words.len());
        Ok((spelled_kind(word, words.len(), token.kind, text), name))
    }

    /// The token that begins at a place where no white space stands.
    fn classed(
        &mut self,
        words: &[Characters],
        chars: Text<'a>,
        at: usize,
    ) -> Result<Classed, AllocError>
        requires begins { at < length (codes_of chars) }
        requires visible { is_whitespace (slice_index (codes_of chars) at) ≡ false }
        requires words { NumbersWords (spellings words.now) (known_texts self.old) self.old.words.items }
        requires signs { AreSigns (spellings words.now) (known_texts self.old) self.old.signs.items }
        ensures start { IfOk result (λ r. r.token.start ≡ at) }
        ensures token { IfOk result (λ r. IsToken (codes_of chars.entry) r.token) }
        ensures kind { IfOk result (λ r. r.kind ≡ kind_of (spellings words.now) (codes_of chars.entry) r.token) }
        ensures name { IfOk result (λ r. r.name ≡ name_number (known_texts self.old) 0
            (codes_of chars.entry) r.token) }
        ensures known { IfOk result (λ r. known_texts self.new ≡ known_with (known_texts self.old)
            (codes_of chars.entry) r.token) }
        ensures words { self.new.words ≡ self.old.words }
        ensures signs { OnOk result (AreSigns (spellings words.now) (known_texts self.new) self.new.signs.items) }
    {
        if let Some((kind, name)) = self.sign(chars, at) {
            let token = Token {
                kind: TokenKind::Sign(chars.at(at)),
                start: at,
                end: at + 1,
            };
            return Ok(Classed { token, kind, name });
        }
        let token = token_at(chars, at);
        let (kind, name) = self.token(words, chars, token)?;
        self.keep(token.kind, kind, name);
        Ok(Classed { token, kind, name })
    }

    /// Puts the tokens of a text behind none, up to its end or its first bad token, and gives where the text of the last
    /// one ends.
    fn classify(
        &mut self,
        words: &[Characters],
        chars: Text<'a>,
        classified: &mut Classified,
    ) -> Result<usize, AllocError>
        requires words { NumbersWords (spellings words.now) (known_texts self.old) self.old.words.items }
        requires signs { AreSigns (spellings words.now) (known_texts self.old) self.old.signs.items }
        requires starts { classified.old.starts ≡ [] }
        requires kinds { classified.old.kinds.items ≡ [] }
        requires names { classified.old.names ≡ [] }
        ensures { IfOk result (λ end. (ts : List Token) × AreClassified (spellings words.now) (codes_of chars.entry) ts
            (classified.new.starts ++ end ∷ []) classified.new.kinds.items classified.new.names) }
    {
        let mut at = 0;
        'reading: while at < chars.len() {
            if is_blank(chars.at(at)) {
                at += 1;
                continue;
            }
            let next = self.classed(words, chars, at)?;
            classified.add(at, next.kind, next.name)?;
            if let TokenKind::Bad = next.token.kind {
                return Ok(next.token.end);
            }
            at = next.token.end;
        }
        Ok(at)
    }
}

/// Puts the tokens of a text, some so many, behind none, up to its end or its first bad token, and gives where the text of
/// the last one ends.
fn add_tokens(
    alloc: Global,
    words: &[Characters],
    chars: Text,
    tokens: usize,
    classified: &mut Classified,
) -> Result<usize, AllocError>
    requires starts { classified.old.starts ≡ [] }
    requires kinds { classified.old.kinds.items ≡ [] }
    requires names { classified.old.names ≡ [] }
    ensures { IfOk result (λ end. (ts : List Token) × AreClassified (spellings words.now) (codes_of chars.entry) ts
        (classified.new.starts ++ end ∷ []) classified.new.kinds.items classified.new.names) }
{
    let mut spellings = Spellings::new(alloc, chars.key(), words, tokens)?;
    spellings.classify(words, chars, classified)
}

/// The tokens of a text, up to its end or its first bad token. The words come as `spelled` gives them.
///
/// White space may stand between tokens, and each token is the longest that begins at its place. A bad one is the last.
/// The only error is that memory is refused. The time is linear in the characters, if a look-up in a hash table counts as
/// one step. The text keys the hash, so that no names can be chosen for which it doesn't.
pub fn classify(alloc: Global, words: &[Characters], chars: Text) -> Result<Classified, AllocError>
    ensures { IfOk result (λ c. (ts : List Token)
        × AreClassified (spellings words.now) (codes_of chars.entry) ts c.starts c.kinds.items c.names) }
{
    // A token takes some six characters in most texts, with the white space before it, and seldom less than 16 / 3.
    let tokens = chars.len() / 16 * 3;
    let mut classified = Classified::with_capacity(alloc, tokens)?;
    let end = add_tokens(alloc, words, chars, tokens, &mut classified)?;
    classified.ended(end)
}
