ghost use Rattle.std.specs.Prelude.{◌≡◌, ◌||◌, IfOk};
ghost use Rattle.edge_io.specs.Feeds.{feed_left, IsDry};
ghost use Rattle.node_words.specs.Fits.{IsFit};
ghost use Rattle.node_words.specs.FedHeaders.{HeaderFed, HasHeaderCause};
ghost use Rattle.halving_texts.specs.HalvingShapes.{shape_of, halving_part};

use crate::shapes::shape_of;
use crate::{HalvingLines, LinePremise};
use edge_io::{Feed, LineBuf, LineReader, Source, TakeError};
use halving_plan::HalvingPlan;
use node_words::{HeaderError, HeaderRead, PlanReader, read_header_by};
use state_codec::StateShape;
use std::alloc::Global;
use std::marker::Model;
use sync_types::NoMemory;

/// Reads the halving part of a header line by line.
#[derive(Drop)]
pub struct HalvingHeader {
    lines: HalvingLines,
}

impl Model for HalvingHeader {
    ghost use Rattle.halving_texts.specs.declared.stages.HalvingStage.{HalvingStage};

    ghost Value = { HalvingStage };

    ghost view = { λ h. h.lines };
}

impl HalvingHeader {
    ghost use Rattle.halving_texts.specs.declared.stages.HalvingStage.TheVariants.{Unread};

    /// A reader of a part of which nothing was read.
    pub fn new() -> HalvingHeader
        ensures { result ≡ Unread }
    {
        HalvingHeader {
            lines: HalvingLines::new(),
        }
    }
}

impl LineReader for HalvingHeader {
    type Value = HalvingPlan;

    type Rule = LinePremise;

    ghost use Rattle.halving_texts.specs.HalvingPart.{halving_step};

    ghost step = { halving_step };

    fn take(&mut self, line: &[u8]) -> Result<Option<HalvingPlan>, TakeError<LinePremise>> {
        LineReader::take(&mut self.lines, line)
    }
}

impl PlanReader for HalvingHeader {
    ghost use Rattle.halving_texts.specs.HalvingShapes.{shape_of};

    ghost shape = { shape_of };

    fn shape_of(alloc: Global, plan: &HalvingPlan) -> Result<StateShape, NoMemory> {
        shape_of(alloc, plan)
    }
}

/// Reads the header of a halving plan, as [`read_header_by`] does.
pub fn read_halving_header<S: Source>(
    alloc: Global,
    feed: &mut Feed<'_, S>,
    line: &mut LineBuf,
) -> Result<HeaderRead<HalvingPlan>, HeaderError<LinePremise>>
    requires { feed.old.line_bytes ≡ 0 }
    ensures same_reference { feed.new.source.ghost_name ≡ feed.old.source.ghost_name }
    ensures header { HeaderFed halving_part
        (feed_left S.left feed.old) (feed_left S.left feed.new) result }
    ensures cause { HasHeaderCause (S.faults feed.old.source.now) (S.faults feed.new.source.now)
        (IsDry S.met feed.old feed.new) result }
    ensures met { IfOk result (λ x. S.met feed.new.source.now
        ≡ (x.ended || S.met feed.old.source.now)) }
    ensures shape { IfOk result (λ x. x.shape ≡ shape_of x.plan) }
    ensures fits { IfOk result (λ x. IsFit x.shape x.header) }
{
    read_header_by(alloc, feed, line, HalvingHeader::new(), LinePremise::Form)
}
