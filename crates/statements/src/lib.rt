// Tokens to statements: the eight forms, one after another.
#![tactic(auto)]

ghost use Rattle.std.specs.Prelude.{◌≡◌, ◌≤◌, length};
ghost use Rattle.tokens.specs.Places.{Within, headed};
ghost use Rattle.statements.specs.Forms.{is_last};
ghost use Rattle.statements.specs.Found.{Named, Next, One, Opened, Stated, Took, Two, declaring};

use tokens::{Token, is_name_token, next_token, same};

// A name in a sort.
#[derive(Clone, Copy)]
pub enum NameOf {
    Class(Token),
    Role(Token),
    Feature(Token),
}

// The names of an axiom.
#[derive(Clone, Copy)]
pub enum Axiom {
    Below(Token, Token),
    Disjoint(Token, Token),
    FunctionalRole(Token),
    FunctionalFeature(Token),
    Range(Token, Token),
}

#[derive(Clone, Copy)]
pub enum Said {
    Declares(NameOf),
    States(Axiom),
}

// What a statement says, and the place behind it.
#[derive(Clone, Copy)]
pub struct Found {
    pub says: Said,
    pub next: usize,
}

// A statement, or the end of the ontology.
#[derive(Clone, Copy)]
pub enum Item {
    Statement(Found),
    End,
}

// A name in brackets, and the place behind them.
#[derive(Clone, Copy)]
struct OneName {
    name: Token,
    next: usize,
}

#[derive(Clone, Copy)]
struct TwoNames {
    first: Token,
    second: Token,
    next: usize,
}

// The place behind a word that stands at a place.
fn take(text: &[u8], at: usize, word: &[u8]) -> Option<usize>
    requires { at ≤ length text.now }
    ensures { Took word.now text.now at result }
{
    let t = next_token(text, at)?;
    same(&text[t.from..t.to], word).then_some(t.to)
}

fn take_name(text: &[u8], at: usize) -> Option<Token>
    requires { at ≤ length text.now }
    ensures { Named text.now at result }
{
    let t = next_token(text, at)?;
    is_name_token(&text[t.from..t.to]).then_some(t)
}

fn one_name(text: &[u8], at: usize) -> Option<OneName>
    requires { at ≤ length text.now }
    ensures { One text.now at result }
{
    let open = take(text, at, b"(")?;
    let name = take_name(text, open)?;
    let next = take(text, name.to, b")")?;
    Some(OneName { name, next })
}

fn two_names(text: &[u8], at: usize) -> Option<TwoNames>
    requires { at ≤ length text.now }
    ensures { Two text.now at result }
{
    let open = take(text, at, b"(")?;
    let first = take_name(text, open)?;
    let second = take_name(text, first.to)?;
    let next = take(text, second.to, b")")?;
    Some(TwoNames {
        first,
        second,
        next,
    })
}

fn statement(says: Said, next: usize) -> Option<Found>
    ensures { result ≡ Some (record { says = says; next = next }) }
{
    Some(Found { says, next })
}

// What stands behind the word `Declaration`.
fn read_declaration(text: &[u8], at: usize) -> Option<Found>
    requires { at ≤ length text.now }
    ensures { Stated text.now (declaring text.now at) at result }
{
    let open = take(text, at, b"(")?;
    let sort = next_token(text, open)?;
    let inner = one_name(text, sort.to)?;
    let next = take(text, inner.next, b")")?;
    let word = &text[sort.from..sort.to];
    if same(word, b"Class") {
        return statement(Said::Declares(NameOf::Class(inner.name)), next);
    }
    if same(word, b"ObjectProperty") {
        return statement(Said::Declares(NameOf::Role(inner.name)), next);
    }
    if same(word, b"DataProperty") {
        return statement(Said::Declares(NameOf::Feature(inner.name)), next);
    }
    None
}

// The statement that begins with a token.
fn read_statement(text: &[u8], t: Token) -> Option<Found>
    requires { Within text.now t }
    ensures { Stated text.now (headed text.now t) t.from result }
{
    let word = &text[t.from..t.to];
    if same(word, b"Declaration") {
        return read_declaration(text, t.to);
    }
    if same(word, b"SubClassOf") {
        let names = two_names(text, t.to)?;
        return statement(
            Said::States(Axiom::Below(names.first, names.second)),
            names.next,
        );
    }
    if same(word, b"DisjointClasses") {
        let names = two_names(text, t.to)?;
        return statement(
            Said::States(Axiom::Disjoint(names.first, names.second)),
            names.next,
        );
    }
    if same(word, b"FunctionalObjectProperty") {
        let one = one_name(text, t.to)?;
        return statement(Said::States(Axiom::FunctionalRole(one.name)), one.next);
    }
    if same(word, b"FunctionalDataProperty") {
        let one = one_name(text, t.to)?;
        return statement(Said::States(Axiom::FunctionalFeature(one.name)), one.next);
    }
    if same(word, b"ObjectPropertyRange") {
        let names = two_names(text, t.to)?;
        return statement(
            Said::States(Axiom::Range(names.first, names.second)),
            names.next,
        );
    }
    None
}

// Whether a token closes the ontology, and nothing stands behind it.
fn is_last(text: &[u8], t: Token) -> bool
    requires { Within text.now t }
    ensures { result ≡ is_last (headed text.now t) }
{
    same(&text[t.from..t.to], b")") && next_token(text, t.to).is_none()
}

// The item from a place on, where the text keeps to the forms there.
pub fn next_item(text: &[u8], at: usize) -> Option<Item>
    requires { at ≤ length text.now }
    ensures { Next text.now at result }
{
    let t = next_token(text, at)?;
    if is_last(text, t) {
        return Some(Item::End);
    }
    let found = read_statement(text, t)?;
    Some(Item::Statement(found))
}

// The place behind `Ontology(`, where the text begins so.
pub fn open_ontology(text: &[u8]) -> Option<usize>
    ensures { Opened text.now result }
{
    let word = take(text, 0, b"Ontology")?;
    take(text, word, b"(")
}
