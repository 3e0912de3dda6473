//! The heads of blocks, loops and ifs.

ghost use Rattle.std.specs.Prelude.{◌≡◌, ◌+◌, ◌<◌, ◌^◌, ◌∷◌, OnOk, length, option_copied};
ghost use Rattle.wc_body.specs.Standard.Nested.{nesting_limit};
ghost use Rattle.wc_body.specs.Standard.Draft.{step};
ghost use Rattle.wc_body.specs.Standard.Entries.{begin_of};
ghost use Rattle.wc_spaces.specs.Kept.Labels.{IsLabels, depth_of};
ghost use Rattle.wc_spaces.specs.Kept.Places.{text_of};
ghost use Rattle.wc_spaces.specs.Standard.Least.{least_from};
ghost use Rattle.wc_spaces.specs.Standard.Spaces.{is_named};
ghost use Rattle.wc_resolve_code.specs.Kept.Known.{Knows};
ghost use Rattle.wc_resolve_code.specs.Kept.Opened.{firsts, begins_if};
ghost use Rattle.wc_resolve_code.specs.Standard.Contexts.{Context, Declared};
ghost use Rattle.wc_resolve_code.specs.Standard.Heads.{text_in, enter, type_of, resolved_head};
ghost use Rattle.wc_resolve_code.specs.Standard.Heads.{differing, differing_ids, head_faults};

use crate::around::Around;
use crate::plain::index_of_type;
use crate::put::put;
use crate::why::NameWhy;
use std::alloc::AllocError;
use wc_body::{BlockType, BodyBuilder, Entry, Kind};
use wc_spaces::{Labels, Noted};
use wc_surface::{Head, HeadType, Id, KeptBody};

/// The text of an identifier.
fn text_at<'a>(id: Option<&Id<'a>>) -> Option<&'a [u8]>
    ensures { text_of result ≡ text_in (option_copied id.entry) }
{
    match id {
        None => None,
        Some(id) => Some(id.text().as_bytes()),
    }
}

/// Whether the label is this identifier.
fn is_label(label: Option<&Id<'_>>, id: &Id<'_>) -> bool
    ensures { result ≡ is_named id.now.text (text_in (option_copied label.entry)) }
{
    match label {
        None => false,
        Some(known) => known.text().as_bytes() == id.text().as_bytes(),
    }
}

/// Notes an identifier that isn't the label.
fn judge_id(label: Option<&Id<'_>>, again: Option<&Id<'_>>, noted: &mut Noted<NameWhy>)
    ensures { noted.new.first ≡ least_from noted.old.first
        (differing (option_copied label.entry) (option_copied again.entry)) }
{
    match again {
        None => {}
        Some(id) => {
            if !is_label(label, id) {
                noted.note(id.token(), NameWhy::LabelDiffers);
            }
        }
    }
}

/// Notes identifiers behind `else` and `end` that aren't the label.
fn judge_head(head: &Head<'_>, noted: &mut Noted<NameWhy>)
    ensures { noted.new.first ≡ least_from noted.old.first (differing_ids head.now) }
{
    judge_id(head.label.get(), head.else_id.get(), noted);
    judge_id(head.label.get(), head.end_id.get(), noted);
}

/// The type of a block, from what is written.
fn block_type(around: &Around<'_, '_, '_, '_>, ty: HeadType) -> BlockType
    ensures { (c : Context) → Knows c around.now → result ≡ type_of c ty }
{
    match ty {
        HeadType::Short(None) => BlockType::Empty,
        HeadType::Short(Some(t)) => BlockType::Value(t),
        HeadType::Use(place) => BlockType::Index(index_of_type(around, place)),
    }
}

/// Adds where a block begins, and its label; an identifier behind its `else` or `end` that isn't the label is noted.
/// The error is want of memory.
#[inline(never)]
pub(crate) fn put_head<'b>(
    around: &Around<'_, '_, '_, '_>,
    body: &'b KeptBody<'_>,
    labels: &mut Labels<'b>,
    builder: &mut BodyBuilder,
    kind: Kind,
    place: u32,
    noted: &mut Noted<NameWhy>,
) -> Result<(), AllocError>
    requires open { depth_of labels.old < 2 ^ 32 }
    requires room { length builder.old.around < nesting_limit }
    ensures built { (c : Context) (ls : Declared) → Knows c around.now
        → OnOk result (builder.new ≡ step builder.old (begin_of kind (resolved_head c body.now ls place))) }
    ensures labels { (ls : Declared) → IsLabels ls labels.old
        → OnOk result (IsLabels (enter body.now ls place) labels.new) }
    ensures depth { OnOk result (depth_of labels.new ≡ depth_of labels.old + 1) }
    ensures around { OnOk result (firsts builder.new.around ≡ begins_if kind ∷ firsts builder.old.around) }
    ensures noted { OnOk result (noted.new.first ≡ least_from noted.old.first (head_faults body.now place)) }
{
    match body.head(place) {
        None => {
            put(builder, Entry::Begin(kind, BlockType::Empty))?;
            labels.enter(None)
        }
        Some(head) => {
            judge_head(head, noted);
            put(builder, Entry::Begin(kind, block_type(around, head.ty)))?;
            labels.enter(text_at(head.label.get()))
        }
    }
}
