ghost use Rattle.std.specs.Prelude.{◌≡◌, ◌≢◌, [], IfSome, IsSome};
ghost use Rattle.std.specs.Io.KnownBytes.{Appends};
ghost use Rattle.outside.specs.Written.{AppendsPart};
ghost use Rattle.varsvc.specs.Order.{IsRunOrder, asked};
ghost use Rattle.varsvc.specs.Outcome.{FailsAt, Performs};
ghost use Rattle.varsvc.specs.Plan.{status_of, text_of};

use crate::asked_plan::plan_asked;
use crate::output::print_plan;
use flash_dev::Flash;
use outside::{Sink, Source};
use std::alloc::Global;

/// What a call of the program leaves: its exit status, and the image that it was given.
#[derive(Debug, Drop)]
pub struct Done<F> {
    pub status: u8,
    pub image: Option<F>,
}

// What the words ask for is one line of the table of verbs.
fn perform<S: Source, K: Sink, F: Flash>(
    alloc: Global,
    words: &[String],
    script: &mut S,
    image: F,
    out: &mut K,
) -> Done<F>
    ensures image { IsSome result.image }
    ensures performs { IfSome result.image (λ after. Performs S.left S.fault_count K.holds K.fault_count F.holds F.size F.fault_count F.moment F.left_since
        (asked words.now) script.old script.new out.old out.new image after result.status) }
{
    let planned = plan_asked(alloc, words, script, image);
    let status = print_plan(alloc, &planned.plan, out);
    Done {
        status,
        image: Some(planned.image),
    }
}

/// The whole program but for running scripts on an image: plays a script with a schedule, lists, checks or formats an image, or prints what a
/// number stands for, as the words ask, or says why they are refused. It reads nothing of the source but for a play. Statuses as of `varsvc`.
pub fn varsvc_plain<S: Source, K: Sink, F: Flash>(
    alloc: Global,
    words: &[String],
    script: &mut S,
    image: F,
    out: &mut K,
) -> Done<F>
    requires { ¬ IsRunOrder (asked words.now) }
    ensures image { IsSome result.image }
    ensures performs { IfSome result.image (λ after. Performs S.left S.fault_count K.holds K.fault_count F.holds F.size F.fault_count F.moment F.left_since
        (asked words.now) script.old script.new out.old out.new image after result.status) }
{
    perform(alloc, words, script, image, out)
}

/// The whole program: reads the words, and does as they ask: reads a script from its source to its end and runs it on the image, one
/// processor after the other; or plays a script with a schedule; or lists, checks or formats the image; or prints what a number stands for; and prints the outcome to its sink. Statuses: 0 all was done; 2 the words, 3 the script,
/// 4 the image is refused; 5 the sink, 6 the source failed, 7 the flash before anything was run; 8 the call is out of memory, or replies of a
/// run are. A call of the flash that fails within a run is a reply, and no status.
pub fn varsvc<S: Source, K: Sink, F: Flash + Send>(
    alloc: Global,
    words: &[String],
    script: &mut S,
    image: F,
    out: &mut K,
) -> Done<F>
    ensures image { IsSome result.image }
    ensures performs { IfSome result.image (λ after. Performs S.left S.fault_count K.holds K.fault_count F.holds F.size F.fault_count F.moment F.left_since
        (asked words.now) script.old script.new out.old out.new image after result.status) }
{
    perform(alloc, words, script, image, out)
}
