//! What holds of what is said. Each function only states its law: it does nothing.

ghost use Rattle.std.specs.Prelude.{◌≡◌, ℕ, ◌≤◌, ◌+◌, ◌^◌, List, [], length, None};
ghost use Rattle.wc_syntax.specs.declared.role.Role.{Role};
ghost use Rattle.wc_syntax.specs.Standard.Phrases.{◌·◌, Many, The, foldedinstr, typeuse, param, result as result_rule};
ghost use Rattle.wc_syntax.specs.Standard.Instructions.{instrs};
ghost use Rattle.wc_syntax.specs.Standard.Deriving.{Item, Event, Derives, numbered};
ghost use Rattle.wc_syntax.specs.declared.kind.Kind.{Kind};
ghost use Rattle.wc_body.specs.Standard.Nested.{nesting_limit};
ghost use Rattle.wc_body.specs.Standard.Draft.{Frame};
ghost use Rattle.wc_surface.specs.declared.instr.TextInstr.{TextInstr};
ghost use Rattle.wc_surface.specs.Standard.Sizes.{body_size};
ghost use Rattle.wc_parse_code.specs.declared.body_draft.BodyDraft.{BodyDraft};
ghost use Rattle.wc_parse_code.specs.declared.held.Held.{Held};
ghost use Rattle.wc_parse_code.specs.declared.use_draft.UseDraft.{UseDraft};
ghost use Rattle.wc_parse_code.specs.declared.word.Word.{Word};
ghost use Rattle.wc_parse_code.specs.Drafting.Words.{index_of};
ghost use Rattle.wc_parse_code.specs.Drafting.Uses.{started_use, take_use, use_of};
ghost use Rattle.wc_parse_code.specs.Drafting.Taking.{take};
ghost use Rattle.wc_parse_code.specs.Drafting.Ending.{nothing_said, body_of, ended};
ghost use Rattle.wc_parse_code.specs.Drafting.Sizes.{said_size};
ghost use Rattle.wc_parse_code.specs.Drafting.Growing.{Grows};
ghost use Rattle.wc_parse_code.specs.Standard.Derived.{AreWords};
ghost use Rattle.wc_surface.specs.declared.type_use.User.{User};
ghost use Rattle.wc_surface.specs.Standard.Written.Indices.{Index};
ghost use Rattle.wc_surface.specs.Standard.Written.TypeUses.{Signature, TypeUse};
ghost use Rattle.wc_surface.specs.Standard.Written.Instructions.{Instrs};
ghost use Rattle.wc_parse_code.specs.Standard.Productions.Tokens.{Said, IsIndex};
ghost use Rattle.wc_parse_code.specs.Standard.Productions.TypeUses.{IsSignature, IsTypeUse, type_use};
ghost use Rattle.wc_parse_code.specs.Standard.Productions.Instructions.{Part, Says};
ghost use Rattle.wc_parse_code.specs.Standard.Productions.Kept.{IsSpoken, AreKept};
ghost use Rattle.wc_parse_code.specs.Drafting.Following.{take_said, take_uses, take_all};
ghost use Rattle.wc_parse_code.specs.Drafting.Leaving.{Leaves};
ghost use Rattle.wc_parse_code.specs.Stored.TypeUses.{index_as, use_as};
ghost use Rattle.wc_parse_code.specs.Stored.Bodies.{body_as};

/// One more kept token adds no more than one parameter to a type use, and no more than one to the type uses and
/// parameters of a body. At first there are none, and the end adds none.
pub(crate) fn one_token_adds_one()
    ensures params { (u : UseDraft) (r : Role) (w : Word) → length (take_use u r w).params ≤ length u.params + 1 }
    ensures body { (d : BodyDraft) (r : Role) (w : Word) → said_size (take d r w) ≤ said_size d + 1 }
    ensures first { said_size nothing_said ≡ 0 }
    ensures end { (d : BodyDraft) → body_size (ended d) ≤ said_size d }
{}

/// One more kept token, and the end, leave all that was said: the heads, type uses, identifiers and labels of a body
/// only grow at their ends. Of a head, the identifiers behind `else` and `end` come later.
pub(crate) fn what_was_said_stays()
    ensures token { (d : BodyDraft) (r : Role) (w : Word) → Grows (body_of d) (body_of (take d r w)) }
    ensures end { (d : BodyDraft) → Grows (body_of d) (ended d) }
{}

/// Behind the instructions of a derivation stands open, and waits, what stood open and waited before them: so behind a
/// whole body nothing does.
pub(crate) fn instructions_close_what_they_open()
    ensures instrs { (depth : ℕ) (items : List Item) (es : List Event) (words : ℕ → Word) (d : BodyDraft)
        (around : List (Frame TextInstr ℕ)) (held : List Held) (blocks : List ℕ)
        → Derives (instrs depth) items es → AreWords words es → length around + depth ≤ nesting_limit
        → Leaves d around held blocks → Leaves (take_all words d es) around held blocks }
    ensures folded { (depth : ℕ) (items : List Item) (es : List Event) (words : ℕ → Word) (d : BodyDraft)
        (around : List (Frame TextInstr ℕ)) (held : List Held) (blocks : List ℕ)
        → Derives (The (foldedinstr depth)) items es → AreWords words es → length around + depth ≤ nesting_limit
        → Leaves d around held blocks → Leaves (take_all words d es) around held blocks }
    ensures first { Leaves nothing_said [] [] [] }
{}

/// Kept tokens say one list of instructions, whichever productions they follow.
pub fn one_value()
    ensures { (p q : Part) (us : List Said) (c d : Instrs) → Says p us c → Says q us d → c ≡ d }
{}

/// The kept tokens of derived instructions, each of which is to the grammar what its text says, say some instructions.
pub fn always_a_value()
    ensures instrs { (depth n : ℕ) (kinds : List Kind) (es : List Event) (us : List Said)
        → Derives (instrs depth) (numbered n kinds) es → AreKept es us → (c : Instrs) × Says Part.instrs us c }
    ensures folded { (depth n : ℕ) (kinds : List Kind) (es : List Event) (us : List Said)
        → Derives (The (foldedinstr depth)) (numbered n kinds) es → AreKept es us
        → (c : Instrs) × Says Part.foldedinstr us c }
{}

/// The kept tokens of derived instructions, nested no deeper than the limit and with numbers that 32 bits hold, add to
/// a body just the instructions that they say, as they are stored.
pub(crate) fn stored_as_said()
    ensures instrs { (depth n : ℕ) (kinds : List Kind) (es : List Event) (us : List Said) (c : Instrs)
        → depth ≤ nesting_limit → n + length kinds ≤ 2 ^ 32 → Derives (instrs depth) (numbered n kinds) es
        → AreKept es us → Says Part.instrs us c → ended (take_said nothing_said us) ≡ body_as c }
    ensures folded { (depth n : ℕ) (kinds : List Kind) (es : List Event) (us : List Said) (c : Instrs)
        → depth ≤ nesting_limit → n + length kinds ≤ 2 ^ 32 → Derives (The (foldedinstr depth)) (numbered n kinds) es
        → AreKept es us → Says Part.foldedinstr us c → ended (take_said nothing_said us) ≡ body_as c }
{}

/// So are an index and a type use, and parameters and results without an index.
pub(crate) fn parts_stored_as_said()
    ensures index { (w : Word) (x : Index) → IsSpoken w → IsIndex w x → index_of w ≡ index_as x }
    ensures type_use { (n : ℕ) (kinds : List Kind) (es : List Event) (us : List Said) (u : TypeUse) (user : User)
        (token : ℕ) → n + length kinds ≤ 2 ^ 32 → Derives (The typeuse) (numbered n kinds) es → AreKept es us
        → IsTypeUse us u → use_of (take_uses (started_use user token) us) ≡ use_as user token u }
    ensures signature { (n : ℕ) (kinds : List Kind) (es : List Event) (us : List Said) (s : Signature) (user : User)
        (token : ℕ) → n + length kinds ≤ 2 ^ 32
        → Derives (Many (The param) · Many (The result_rule)) (numbered n kinds) es → AreKept es us → IsSignature us s
        → use_of (take_uses (started_use user token) us) ≡ use_as user token (type_use None s) }
{}
