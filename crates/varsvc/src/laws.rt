//! Laws of the report, of images and of the table of verbs: each is the contract of a function that does nothing.
ghost use Rattle.std.specs.Prelude.{◌≡◌, []};
ghost use Rattle.flash_dev.specs.Blank.{blank_image};
ghost use Rattle.var_types.specs.Census.{census_of};
ghost use Rattle.var_types.specs.Kept.{content_region, kept};
ghost use Rattle.varsvc.specs.Images.{nothing};
ghost use Rattle.varsvc.specs.Outcome.{CallsAreJudged};
ghost use Rattle.varsvc.specs.Runs.{OneTextOneSession, ProcessorsAreStepped};

use flash_dev::Flash;

/// A report tells the session that it is of.
pub fn one_text_one_session()
    ensures { OneTextOneSession }
{}

/// Where nothing failed and no memory was wanting, what a run prints is the one-thread service's on the image, called processor by processor:
/// history, places and replies.
pub fn runs_are_the_one_thread_services()
    ensures { ProcessorsAreStepped }
{}

/// Where no call of source, sink or flash fails, a call of the program that has memory does what is accepted, and refuses the rest.
pub fn calls_are_judged<F: Flash>()
    ensures { CallsAreJudged F.holds F.size F.fault_count F.moment F.left_since }
{}

/// A blank image keeps no variable, and has no record of any kind.
pub fn blank_images_keep_nothing()
    ensures variables { kept blank_image ≡ [] }
    ensures census { census_of (content_region blank_image) ≡ nothing }
{}
