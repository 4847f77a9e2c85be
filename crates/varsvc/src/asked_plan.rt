//! What the words ask for is done, and what is to be printed of it is planned.
ghost use Rattle.std.specs.Prelude.{◌≡◌, ◌≢◌, ◌⊎◌, false};
ghost use Rattle.flash_dev.specs.Formatting.{IsFormatLeft};
ghost use Rattle.flash_dev.specs.Moments.{Stays};
ghost use Rattle.flash_dev.specs.Rules.{IsKept};
ghost use Rattle.image_make.specs.Generated.{generated_script};
ghost use Rattle.report_text.specs.Summary.{summary_line};
ghost use Rattle.varsvc.specs.Order.{IsRunOrder, asked};
ghost use Rattle.varsvc.specs.Outcome.{FailsAt, FlashFails, IsText, LeavesImage, ReadsInput, audit_row, entries_row, format_row, inspection_row, play_row, row, text_row};
ghost use Rattle.varsvc.specs.Plan.{HasPlanValues, IsStreamed, status_of, text_of};
ghost use Rattle.varsvc.specs.Told.{told_of};
ghost use Rattle.varsvc.specs.Work.{work_summary};

use crate::image::{Inspection, plan_format, plan_inspection};
use crate::output::{Plan, Planned, Streamed, plan_usage};
use crate::play::plan_play;
use crate::policies::{plan_audit, plan_entries};
use crate::run::{plan_run, plan_work};
use crate::words::{Order, read_words};
use flash_dev::Flash;
use outside::Source;
use std::alloc::Global;

fn plan_inspected<F: Flash>(alloc: Global, what: Inspection, image: F) -> Planned<F>
    ensures text { IsText (inspection_row what.entry (F.holds image) (F.size image)) (status_of result.plan) (text_of result.plan) }
    ensures cause { FailsAt 7 (status_of result.plan) (F.fault_count image) (F.fault_count result.image) }
    ensures kept { F.holds result.image ≡ F.holds image }
    ensures at_any_moment { Stays IsKept F.moment F.left_since F.holds image result.image }
    ensures size { F.size result.image ≡ F.size image }
{
    let mut image = image;
    let plan = plan_inspection(alloc, what, &mut image);
    Planned { plan, image }
}

fn plan_formatted<F: Flash>(alloc: Global, image: F) -> Planned<F>
    ensures text { IsText (format_row (F.size image)) (status_of result.plan) (text_of result.plan) }
    ensures cause { FailsAt 7 (status_of result.plan) (F.fault_count image) (F.fault_count result.image) }
    ensures leaves { LeavesImage (format_row (F.size image)) (status_of result.plan) (F.size image) (F.holds image) (F.holds result.image) }
    ensures at_any_moment { Stays IsFormatLeft F.moment F.left_since F.holds image result.image }
    ensures unstreamed { ¬ IsStreamed result.plan }
    ensures size { F.size result.image ≡ F.size image }
{
    let mut image = image;
    let plan = plan_format(alloc, &mut image);
    Planned { plan, image }
}

fn plan_played<S: Source, F: Flash>(alloc: Global, script: &mut S, image: F) -> Planned<F>
    ensures text { HasPlanValues result.plan → IsText (play_row (S.left script.old)) (status_of result.plan) (text_of result.plan) }
    ensures source { FailsAt 6 (status_of result.plan) (S.fault_count script.old) (S.fault_count script.new) }
    ensures device { status_of result.plan ≢ 7 }
    ensures reads { ReadsInput (play_row (S.left script.old)) (status_of result.plan) (S.left script.old) (S.left script.new) }
    ensures image { result.image ≡ image }
{
    Planned {
        plan: plan_play(alloc, script),
        image,
    }
}

fn plan_made<F: Flash>(number: u32, image: F) -> Planned<F>
    ensures text { IsText (text_row (generated_script number)) (status_of result.plan) (text_of result.plan) }
    ensures image { result.image ≡ image }
{
    let streamed = Streamed::Script { number };
    Planned {
        plan: Plan::Stream { streamed },
        image,
    }
}

fn plan_worked<F: Flash>(alloc: Global, number: u32, image: F) -> Planned<F>
    ensures text { IsText (text_row (summary_line (work_summary number))) (status_of result.plan) (text_of result.plan) }
    ensures image { result.image ≡ image }
{
    Planned {
        plan: plan_work(alloc, number),
        image,
    }
}

fn plan_entered<S: Source, F: Flash>(alloc: Global, script: &mut S, image: F) -> Planned<F>
    ensures text { IsText (entries_row (S.left script.old)) (status_of result.plan) (text_of result.plan) }
    ensures source { FailsAt 6 (status_of result.plan) (S.fault_count script.old) (S.fault_count script.new) }
    ensures device { status_of result.plan ≢ 7 }
    ensures reads { ReadsInput (entries_row (S.left script.old)) (status_of result.plan) (S.left script.old) (S.left script.new) }
    ensures image { result.image ≡ image }
{
    Planned {
        plan: plan_entries(alloc, script),
        image,
    }
}

fn plan_audited<S: Source, F: Flash>(alloc: Global, script: &mut S, image: F) -> Planned<F>
    ensures text { IsText (audit_row (S.left script.old) (F.holds image) (F.size image)) (status_of result.plan) (text_of result.plan) }
    ensures source { FailsAt 6 (status_of result.plan) (S.fault_count script.old) (S.fault_count script.new) }
    ensures reads { ReadsInput (audit_row (S.left script.old) (F.holds image) (F.size image)) (status_of result.plan) (S.left script.old) (S.left script.new) }
    ensures cause { FailsAt 7 (status_of result.plan) (F.fault_count image) (F.fault_count result.image) }
    ensures kept { F.holds result.image ≡ F.holds image }
    ensures at_any_moment { Stays IsKept F.moment F.left_since F.holds image result.image }
    ensures size { F.size result.image ≡ F.size image }
{
    let mut image = image;
    let plan = plan_audit(alloc, script, &mut image);
    Planned { plan, image }
}

/// Does what the words ask for, and plans what is to be printed. The words are read once.
pub fn plan_asked<S: Source, F: Flash>(
    alloc: Global,
    words: &[String],
    script: &mut S,
    image: F,
) -> Planned<F>
    ensures text { HasPlanValues result.plan → IsText (row (asked words.now) (told_of F.holds F.size F.fault_count F.moment F.left_since (S.left script.old) image result.image)) (status_of result.plan) (text_of result.plan) }
    ensures unprinted { IsStreamed result.plan → (row (asked words.now) (told_of F.holds F.size F.fault_count F.moment F.left_since (S.left script.old) image result.image)).untouched
        ⊎ (row (asked words.now) (told_of F.holds F.size F.fault_count F.moment F.left_since (S.left script.old) image result.image)).unprinted }
    ensures source { FailsAt 6 (status_of result.plan) (S.fault_count script.old) (S.fault_count script.new) }
    ensures flash { FlashFails (row (asked words.now) (told_of F.holds F.size F.fault_count F.moment F.left_since (S.left script.old) image result.image)) (status_of result.plan) (F.fault_count image) (F.fault_count result.image) }
    ensures reads { ReadsInput (row (asked words.now) (told_of F.holds F.size F.fault_count F.moment F.left_since (S.left script.old) image result.image)) (status_of result.plan) (S.left script.old) (S.left script.new) }
    ensures leaves { ¬ IsRunOrder (asked words.now) → LeavesImage (row (asked words.now) (told_of F.holds F.size F.fault_count F.moment F.left_since (S.left script.old) image result.image)) (status_of result.plan) (F.size image) (F.holds image) (F.holds result.image) }
    ensures at_any_moment { ¬ IsRunOrder (asked words.now) → Stays (row (asked words.now) (told_of F.holds F.size F.fault_count F.moment F.left_since (S.left script.old) image result.image)).leaves F.moment F.left_since F.holds image result.image }
    ensures streamed { ¬ IsRunOrder (asked words.now) → IsStreamed result.plan → F.holds result.image ≡ F.holds image }
    ensures unread { (row (asked words.now) (told_of F.holds F.size F.fault_count F.moment F.left_since (S.left script.old) image result.image)).reads ≡ false → script.new ≡ script.old }
    ensures unopened { (row (asked words.now) (told_of F.holds F.size F.fault_count F.moment F.left_since (S.left script.old) image result.image)).opens ≡ false → result.image ≡ image }
    ensures size { F.size result.image ≡ F.size image }
{
    match read_words(alloc, words) {
        Ok(Order::Run { .. }) => plan_run(alloc, script, image),
        Ok(Order::Play) => plan_played(alloc, script, image),
        Ok(Order::List { .. }) => plan_inspected(alloc, Inspection::Listing, image),
        Ok(Order::Check { .. }) => plan_inspected(alloc, Inspection::Check, image),
        Ok(Order::Format { .. }) => plan_formatted(alloc, image),
        Ok(Order::Make { number }) => plan_made(number, image),
        Ok(Order::Work { number }) => plan_worked(alloc, number, image),
        Ok(Order::Entries) => plan_entered(alloc, script, image),
        Ok(Order::Audit { .. }) => plan_audited(alloc, script, image),
        Err(fault) => Planned {
            plan: plan_usage(alloc, fault),
            image,
        },
    }
}
