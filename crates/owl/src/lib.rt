// The operation Read OWL: the vocabulary that an OWL text states.
#![tactic(auto)]

ghost use Rattle.std.specs.Prelude.{true, [], ◌∷◌, ◌≡◌, ◌*◌, ◌+◌, ◌<◌, ◌^◌, ◌≤◌, length};
ghost use Rattle.declarations.specs.Names.{counted, is_known, number_in, sound_names};
ghost use Rattle.declarations.specs.Passes.{counts_of};
ghost use Rattle.frames.specs.Rows.{put_at};
ghost use Rattle.meaning.specs.Limits.{most_roles, most_text};
ghost use Rattle.meaning.specs.Lists.{all};
ghost use Rattle.meaning.specs.Operations.{output_after};
ghost use Rattle.meaning.specs.Vocabulary.{vocabulary_words};
ghost use Rattle.name_table.specs.Numbers.{number_found, number_of};
ghost use Rattle.name_table.specs.Table.{Listed, names_from};
ghost use Rattle.owl.specs.Owl.{OwlPost, axioms_by, axioms_in, vocabulary_in};
ghost use Rattle.owl.specs.Passes.{Begins, Looks, Many, Noted, Ready, axioms, first_number, kind_of, naming, second_number, statements_of};
ghost use Rattle.records.specs.Written.{Room, RoomFor, Written, link_at};
ghost use Rattle.statements.specs.Forms.{ontology};
ghost use Rattle.statements.specs.Found.{AxiomWithin, NameWithin, SaidWithin, stated_of, statement_of, use_of};
ghost use Rattle.tokens.specs.Places.{Within, bytes_of};
ghost use Rattle.tokens.specs.Tokens.{tokens};
ghost use Rattle.words.specs.Members.{members, others_of};
ghost use Rattle.words.specs.Sets.{capacity};

use declarations::{Counts, FEATURES, ROLES, list_names, survey};
use meaning::limits::{MOST_AXIOMS, MOST_CLASSES, MOST_FEATURES, MOST_ROLES, MOST_TEXT};
use meaning::refusals::{Refusal, VocabularyFault};
use name_table::{has_repeats, number};
use records::{link, put_record};
use statements::{Axiom, Item, NameOf, Said, next_item, open_ontology};
use tokens::Token;
use words::{NAME_WORDS, count, insert, insert_others, next};

// A text that keeps to the forms, where its statements begin, and the names that it declares.
#[derive(Clone, Copy)]
struct Source<'a> {
    text: &'a [u8],
    start: usize,
    table: &'a [u32],
    counts: Counts,
    ghost ready: { Ready text.now table.now counts },
    ghost begins: { Begins text.now start },
    ghost short: { length text.now ≤ most_text },
}

impl<'a> Source<'a> {
    // ---- names looked up

    // The number of a name among n from entry base on.
    fn look_up(&self, base: usize, n: usize, name: Token) -> Option<u32>
        requires { (Listed self.now.text.now self.now.table.now base n) × (base + n ≤ 65536) × Within self.now.text.now name }
        ensures { result ≡ number_found (number_of (names_from self.now.text.now self.now.table.now base n) (bytes_of self.now.text.now name)) }
    {
        let found = number(
            self.text,
            self.table,
            base,
            n,
            &self.text[name.from..name.to],
        )?;
        Some(found as u32)
    }

    // The number of a name in its sort.
    fn number(&self, name: NameOf) -> Option<u32>
        requires { NameWithin self.now.text.now name }
        ensures { result ≡ number_found (number_in (statements_of self.now.text.now) (use_of self.now.text.now name)) }
    {
        let counts = self.counts;
        match name {
            NameOf::Class(name) => self.look_up(0, counts.classes, name),
            NameOf::Role(name) => self.look_up(ROLES, counts.roles, name),
            NameOf::Feature(name) => self.look_up(FEATURES, counts.features, name),
        }
    }

    // The number of an axiom's first name, by the sort that its place needs.
    fn first_number(&self, stated: Axiom) -> Option<u32>
        requires { AxiomWithin self.now.text.now stated }
        ensures { result ≡ number_found (first_number self.now.text.now stated) }
    {
        match stated {
            Axiom::Below(name, _) | Axiom::Disjoint(name, _) => self.number(NameOf::Class(name)),
            Axiom::FunctionalRole(name) | Axiom::Range(name, _) => self.number(NameOf::Role(name)),
            Axiom::FunctionalFeature(name) => self.number(NameOf::Feature(name)),
        }
    }

    // The number of its second name, a class.
    fn second_number(&self, stated: Axiom) -> Option<u32>
        requires { AxiomWithin self.now.text.now stated }
        ensures { result ≡ number_found (second_number self.now.text.now stated) }
    {
        match stated {
            Axiom::Below(_, name) | Axiom::Disjoint(_, name) | Axiom::Range(_, name) => {
                self.number(NameOf::Class(name))
            }
            Axiom::FunctionalRole(_) | Axiom::FunctionalFeature(_) => None,
        }
    }

    // ---- whether names are known, and who is functional

    // Whether an axiom's names are declared. A role or a feature that it makes functional goes into a set.
    fn is_stated_known(&self, stated: Axiom, roles: &mut [u32], features: &mut [u32]) -> bool
        requires { AxiomWithin self.now.text.now stated }
        ensures { Looks (statements_of self.now.text.now) (stated_of self.now.text.now stated) result roles.old roles.new features.old features.new }
    {
        let Some(first) = self.first_number(stated) else {
            return false;
        };
        match stated {
            Axiom::FunctionalRole(_) => {
                insert(roles, first);
                true
            }
            Axiom::FunctionalFeature(_) => {
                insert(features, first);
                true
            }
            // The other kinds have a second name.
            _ => self.second_number(stated).is_some(),
        }
    }

    // The same of a statement: a declaration needs no name.
    fn is_known(&self, says: Said, roles: &mut [u32], features: &mut [u32]) -> bool
        requires { SaidWithin self.now.text.now says }
        ensures { Looks (statements_of self.now.text.now) (statement_of self.now.text.now says) result roles.old roles.new features.old features.new }
    {
        match says {
            Said::Declares(_) => true,
            Said::States(stated) => self.is_stated_known(stated, roles, features),
        }
    }

    // Whether the names of every axiom are declared. On the way the functional ones are noted, so that the text is not read again for them.
    fn are_known(&self, roles: &mut [u32], features: &mut [u32]) -> bool
        ensures value { result ≡ all (is_known (statements_of self.now.text.now)) (statements_of self.now.text.now) }
        ensures noted { result ≡ true → Noted (axioms_in (statements_of self.now.text.now)) roles.old roles.new features.old features.new }
    {
        let mut at = self.start;
        while let Some(item) = next_item(self.text, at) {
            match item {
                Item::Statement(found) => {
                    if !self.is_known(found.says, roles, features) {
                        return false;
                    }
                    at = found.next;
                }
                Item::End => return true,
            }
        }
        false
    }

    // No name is declared twice in a sort, and every axiom's names are declared.
    fn are_sound(&self, roles: &mut [u32], features: &mut [u32]) -> bool
        ensures value { result ≡ sound_names (statements_of self.now.text.now) }
        ensures noted { result ≡ true → Noted (axioms_in (statements_of self.now.text.now)) roles.old roles.new features.old features.new }
    {
        let counts = self.counts;
        if has_repeats(self.text, self.table, 0, counts.classes) {
            return false;
        }
        if has_repeats(self.text, self.table, ROLES, counts.roles) {
            return false;
        }
        if has_repeats(self.text, self.table, FEATURES, counts.features) {
            return false;
        }
        self.are_known(roles, features)
    }

    // ---- the words

    // A record for each axiom, in text order, from record 1 on.
    fn write_axioms(&self, last: usize, out: &mut [u32]) -> usize
        requires { RoomFor 4 last 1 (axioms_in (statements_of self.now.text.now)) out.old }
        ensures { Written axioms last 1 (axioms_in (statements_of self.now.text.now)) out.old out.new result }
    {
        let mut at = self.start;
        let mut k = 1;
        while let Some(item) = next_item(self.text, at) {
            match item {
                Item::Statement(found) => {
                    at = found.next;
                    match found.says {
                        Said::Declares(_) => continue,
                        Said::States(stated) => {
                            // A record's word is 0 where the axiom has no second name.
                            let a = self.first_number(stated).unwrap_or(0);
                            let b = self.second_number(stated).unwrap_or(0);
                            put(out, k, last, kind_of(stated), a, b);
                            k += 1;
                        }
                    }
                }
                Item::End => return k,
            }
        }
        k
    }

    // The header and all records: the axioms, then the roles and the features that have many values.
    fn write_all(&self, last: usize, roles: &[u32], features: &[u32], out: &mut [u32])
        requires many { Many self.now.text.now roles.now features.now }
        requires room_for { RoomFor 4 last 1 (vocabulary_in (statements_of self.now.text.now)).axioms out.old × (last ≡ length (vocabulary_in (statements_of self.now.text.now)).axioms) }
        ensures { out.new ≡ output_after (vocabulary_words (vocabulary_in (statements_of self.now.text.now))) out.old }
    {
        // The header has a record's form: three counts and a link.
        let counts = self.counts;
        put(
            out,
            0,
            last,
            counts.classes as u32,
            counts.roles as u32,
            counts.features as u32,
        );
        let k = self.write_axioms(last, out);
        let m = write_names(out, k, last, 6, roles);
        write_names(out, m, last, 7, features);
    }

    // ---- the operation

    // With all that is to be written: too many records, too short an output, or the words.
    fn write(&self, roles: &[u32], features: &[u32], out: &mut [u32]) -> Result<usize, Refusal>
        requires { (sound_names (statements_of self.now.text.now) ≡ true) × Many self.now.text.now roles.now features.now }
        ensures { OwlPost self.now.text.now out.old out.new result }
    {
        let axioms = self.counts.axioms;
        let last = axioms + count(roles) as usize + count(features) as usize;
        if MOST_AXIOMS < last {
            return Err(Refusal::Vocabulary(VocabularyFault::Length));
        }
        let size = 4 * (last + 1);
        if out.len() < size {
            return Err(Refusal::Output);
        }
        self.write_all(last, roles, features, out);
        Ok(size)
    }

    // Names that are not sound are refused; else what follows.
    fn finish(&self, out: &mut [u32]) -> Result<usize, Refusal>
        ensures { OwlPost self.now.text.now out.old out.new result }
    {
        let mut roles = [0u32; NAME_WORDS];
        let mut features = [0u32; NAME_WORDS];
        if !self.are_sound(&mut roles[..], &mut features[..]) {
            return Err(Refusal::Names);
        }
        // Who is not functional has many values.
        let many_roles = find_others(&roles[..], self.counts.roles as u32);
        let many_features = find_others(&features[..], self.counts.features as u32);
        self.write(&many_roles[..], &many_features[..], out)
    }
}

// Whether the counts are a vocabulary's.
fn are_counted(c: Counts) -> bool
    ensures { result ≡ counted c.classes c.roles c.features }
{
    1 <= c.classes
        && c.classes <= MOST_CLASSES as usize
        && c.roles <= MOST_ROLES as usize
        && c.features <= MOST_FEATURES as usize
}

// The number of an axiom's kind in a record.
fn kind_of(stated: Axiom) -> u32
    ensures { result ≡ kind_of stated }
{
    match stated {
        Axiom::Below(_, _) => 1,
        Axiom::Disjoint(_, _) => 2,
        Axiom::FunctionalRole(_) => 3,
        Axiom::FunctionalFeature(_) => 4,
        Axiom::Range(_, _) => 5,
    }
}

// The numbers 1 to n that a set lacks.
fn find_others(names: &[u32], n: u32) -> [u32; NAME_WORDS]
    requires { n ≤ most_roles }
    ensures { members result ≡ others_of names.now n }
{
    let mut others = [0u32; NAME_WORDS];
    insert_others(&mut others[..], names, n);
    others
}

// Record k: kind, a, b, next.
fn put(out: &mut [u32], k: usize, last: usize, kind: u32, a: u32, b: u32)
    requires { (k ≤ last) × Room 4 last out.old }
    ensures { out.new ≡ put_at out.old (4 * k) (kind ∷ (a ∷ (b ∷ (link_at last k ∷ [])))) }
{
    put_record(out, 4 * k, [kind, a, b, link(k, last)]);
}

// A record of a kind for each name of a set, rising, from record k on.
fn write_names(out: &mut [u32], k: usize, last: usize, kind: u32, names: &[u32]) -> usize
    requires { (capacity names.now < 2 ^ 32) × RoomFor 4 last k (members names.now) out.old }
    ensures { Written (naming kind) last k (members names.now) out.old out.new result }
{
    let mut at = k;
    // `next` answers 0 where no name is left.
    let mut x = next(names, 0);
    while x != 0 {
        put(out, at, last, kind, x, 0);
        at += 1;
        x = next(names, x);
    }
    at
}

// Three words for each name that a vocabulary may have.
const TABLE_SIZE: usize = 3 * (FEATURES + MOST_FEATURES as usize);

// With a table of names of its own.
fn fill(text: &[u8], start: usize, counts: Counts, out: &mut [u32]) -> Result<usize, Refusal>
    requires begins { Begins text.now start × (length text.now ≤ most_text) × (Some counts ≡ counts_of (ontology (tokens text.now))) }
    requires small { counted counts.classes counts.roles counts.features ≡ true }
    ensures { OwlPost text.now out.old out.new result }
{
    let mut table = [0u32; TABLE_SIZE];
    list_names(text, start, &mut table[..]);
    let source = Source {
        text,
        start,
        table: &table[..],
        counts,
    };
    source.finish(out)
}

// Read OWL. The time grows with the text's length and the number of declared names: each axiom's names are looked up among them, by their
// prints.
pub fn read_owl(text: &[u8], out: &mut [u32]) -> Result<usize, Refusal>
    ensures { OwlPost text.now out.old out.new result }
{
    if MOST_TEXT < text.len() {
        return Err(Refusal::Text);
    }
    let Some(start) = open_ontology(text) else {
        return Err(Refusal::Text);
    };
    let Some(counts) = survey(text, start) else {
        return Err(Refusal::Text);
    };
    if !are_counted(counts) {
        return Err(Refusal::Names);
    }
    fill(text, start, counts, out)
}
