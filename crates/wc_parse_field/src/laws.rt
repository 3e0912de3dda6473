//! What holds of what kept tokens say. Each function only states its law: it does nothing.

ghost use Rattle.std.specs.Prelude.{◌≡◌, ℕ, ◌≤◌, ◌+◌, ◌^◌, List, [], ◌∷◌, ◌++◌, length};
ghost use Rattle.wc_body.specs.Standard.Nested.{nesting_limit};
ghost use Rattle.wc_syntax.specs.declared.kind.Kind.{Kind};
ghost use Rattle.wc_syntax.specs.declared.kind.Kind.TheVariants.{OtherWord};
ghost use Rattle.wc_syntax.specs.declared.role.Role.TheVariants as role;
ghost use Rattle.wc_syntax.specs.Standard.Phrases.{The, text, modulefield};
ghost use Rattle.wc_syntax.specs.Standard.Deriving.{Event, Derives, numbered};
ghost use Rattle.wc_surface.specs.Standard.Written.Fields.{Field};
ghost use Rattle.wc_parse_code.specs.Standard.Tokens.{KeptToken};
ghost use Rattle.wc_parse_code.specs.Standard.Productions.Tokens.{Said, ◌⊳◌};
ghost use Rattle.wc_parse_code.specs.Standard.Productions.Kept.{AreKept};
ghost use Rattle.wc_parse_field.specs.declared.field_draft.FieldDraft.{FieldDraft};
ghost use Rattle.wc_parse_field.specs.Drafting.Fields.{started, begun};
ghost use Rattle.wc_parse_field.specs.Drafting.Finished.{finished};
ghost use Rattle.wc_parse_field.specs.Drafting.Following.{Takes};
ghost use Rattle.wc_parse_field.specs.Standard.Productions.Fields.{IsField, AreFields};
ghost use Rattle.wc_parse_field.specs.Stored.Fields.{field_as};

/// The kept tokens of a text, each of which is to the grammar what its text says, say some fields.
pub fn always_some_fields()
    ensures { (depth n : ℕ) (kinds : List Kind) (es : List Event) (us : List Said)
        → Derives (The (text depth)) (numbered n kinds) es → AreKept es us → (fs : List Field) × AreFields us fs }
{}

/// Kept tokens say one list of fields, whichever productions they follow.
pub fn one_list_of_fields()
    ensures { (us : List Said) (fields others : List Field) → AreFields us fields → AreFields us others
        → fields ≡ others }
{}

/// The kept tokens of a derived field, nested no deeper than the limit and with numbers that 32 bits hold, make a draft
/// of just the field that they say, as it is stored.
pub(crate) fn field_stored_as_said()
    ensures { (depth n : ℕ) (kinds : List Kind) (es : List Event) (w z : KeptToken) (us : List Said) (f : Field)
        → depth ≤ nesting_limit → n + length kinds ≤ 2 ^ 32 → Derives (The (modulefield depth)) (numbered n kinds) es
        → AreKept es (role.Field ⊳ w ∷ us ++ role.FieldEnd ⊳ z ∷ []) → IsField w us f
        → (d : FieldDraft) → Takes (begun w.symbol.kind w.token (started OtherWord 0)) us d → finished d ≡ field_as f }
{}
