//! What is done with an image alone, and what is to be printed of it.
ghost use Rattle.std.specs.Prelude.{◌≡◌, ◌≢◌, true, length, take, vec_len, IfSome, IsOk, List, Option, ℕ};
ghost use Rattle.flash_dev.specs.Moments.{Stays};
ghost use Rattle.flash_dev.specs.Rules.{IsKept};
ghost use Rattle.flash_dev.specs.Formatting.{IsFormatLeft};
ghost use Rattle.flash_dev.specs.Geometry.{geometry_of};
ghost use Rattle.var_types.specs.Layout.{headers_size, image_size, volume_size};
ghost use Rattle.report_text.specs.Check.{check_text};
ghost use Rattle.varsvc.specs.declared.image.inspection.Inspection.TheVariants.{Check};
ghost use Rattle.varsvc.specs.FaultLines.{foreign_line, image_line};
ghost use Rattle.varsvc.specs.Images.{IsRead};
ghost use Rattle.varsvc.specs.Outcome.{FailsAt, IsText, LeavesImage, format_row, inspection_row};
ghost use Rattle.policy_audit.specs.Audit.{audit_text};
ghost use Rattle.var_types.specs.Region.{region_map};
ghost use Rattle.varsvc.specs.Plan.{IsStreamed, content_text, PlansFault, PlansLine, status_of, text_of, volume_region};

use crate::image::{Content, Inspection};
use crate::input::zeros;
use crate::output::{Plan, Streamed, plan_text, write_foreign_line, write_image_line};
use flash_dev::{
    Flash, HEADERS_BYTES, IMAGE_BYTES, ImageFault, VOLUME_BYTES, format_image, geometry_of,
};
use ftw_mount::{Kept, read_kept};
use policy_audit::{Policies, write_audit};
use report_text::{CheckFacts, check_facts, write_check};
use std::alloc::Global;
use var_region::Region;
use var_types::{Bytes, TextBuffer};

/// Plans the line for a refused image.
pub fn plan_refused(alloc: Global, fault: ImageFault) -> Plan
    ensures { PlansLine 4 (image_line fault) result }
{
    let mut text = TextBuffer::new(alloc);
    write_image_line(fault, &mut text);
    plan_text(4, text)
}

fn plan_fault(alloc: Global, fault: ImageFault) -> Plan
    ensures { PlansFault fault result }
{
    match fault {
        ImageFault::Device => Plan::DeviceFault,
        _ => plan_refused(alloc, fault),
    }
}

/// Plans the line for an image of foreign work.
pub fn plan_foreign(alloc: Global) -> Plan
    ensures { PlansLine 4 foreign_line result }
{
    let mut text = TextBuffer::new(alloc);
    write_foreign_line(&mut text);
    plan_text(4, text)
}

// Plans the check report of a content.
fn plan_checked(alloc: Global, kept: Kept, content: &Content) -> Plan
    ensures { PlansLine 0 (content_text Check kept content.now) result }
{
    let region = Region::over(content.as_slice(), HEADERS_BYTES as u32, true);
    match check_facts(alloc, &region, kept.state, kept.blank) {
        Ok(facts) => plan_facts(alloc, &facts),
        Err(_) => Plan::NoMemory,
    }
}

fn plan_facts(alloc: Global, facts: &CheckFacts) -> Plan
    ensures { PlansLine 0 (check_text facts.now) result }
{
    let mut text = TextBuffer::new(alloc);
    write_check(facts, &mut text);
    plan_text(0, text)
}

// Plans the audit of a content by policies.
fn plan_audited(alloc: Global, policies: &Policies, content: &Content) -> Plan
    ensures { PlansLine 0 (audit_text policies.now (region_map (volume_region content.now))) result }
{
    let region = Region::over(content.as_slice(), HEADERS_BYTES as u32, true);
    let mut text = TextBuffer::new(alloc);
    match write_audit(alloc, policies, &region, &mut text) {
        Ok(()) => plan_text(0, text),
        Err(_) => Plan::NoMemory,
    }
}

// Plans what is printed of a content that is accepted, unless it is that of foreign work.
fn plan_kept(alloc: Global, what: Inspection, kept: Kept, content: Content) -> Plan
    requires accepted { IsOk (geometry_of (take headers_size content)) }
    ensures text { (told : Option (List ℕ)) → IfSome told (IsRead kept content) → IsText (inspection_row what.entry told image_size) (status_of result) (text_of result) }
    ensures device { status_of result ≢ 7 }
{
    if kept.is_foreign() {
        return plan_foreign(alloc);
    }
    match what {
        Inspection::Listing => Plan::Stream {
            streamed: Streamed::Listing { content },
        },
        Inspection::Check => plan_checked(alloc, kept, &content),
        Inspection::Audit(policies) => plan_audited(alloc, policies, &content),
    }
}

// Plans what is printed of what was read of an image, or the refusal of it.
fn plan_content(alloc: Global, what: Inspection, kept: Kept, content: Content) -> Plan
    ensures text { (told : Option (List ℕ)) → IfSome told (IsRead kept content) → IsText (inspection_row what.entry told image_size) (status_of result) (text_of result) }
    ensures device { status_of result ≢ 7 }
{
    match geometry_of(&content.as_slice()[..HEADERS_BYTES]) {
        Ok(_) => plan_kept(alloc, what, kept, content),
        Err(fault) => plan_fault(alloc, fault),
    }
}

// Reads what an image of the right length keeps, and plans what is printed of it.
fn plan_read<F: Flash>(alloc: Global, what: Inspection, flash: &mut F, content: Vec<u8>) -> Plan
    requires size { F.size flash.old ≡ image_size }
    requires content { vec_len content ≡ volume_size }
    ensures text { IsText (inspection_row what.entry (F.holds flash.old) (F.size flash.old)) (status_of result) (text_of result) }
    ensures cause { FailsAt 7 (status_of result) (F.fault_count flash.old) (F.fault_count flash.new) }
    ensures kept { F.holds flash.new ≡ F.holds flash.old }
    ensures at_any_moment { Stays IsKept F.moment F.left_since F.holds flash.old flash.new }
    ensures same_size { F.size flash.new ≡ F.size flash.old }
{
    let mut content = content;
    match read_kept(flash, &mut content) {
        Ok(kept) => plan_content(alloc, what, kept, Content::new(content)),
        Err(_) => Plan::DeviceFault,
    }
}

// Plans what is printed of an image of the right length, where there is memory for what it keeps.
fn plan_image<F: Flash>(alloc: Global, what: Inspection, flash: &mut F) -> Plan
    requires { F.size flash.old ≡ image_size }
    ensures text { IsText (inspection_row what.entry (F.holds flash.old) (F.size flash.old)) (status_of result) (text_of result) }
    ensures cause { FailsAt 7 (status_of result) (F.fault_count flash.old) (F.fault_count flash.new) }
    ensures kept { F.holds flash.new ≡ F.holds flash.old }
    ensures at_any_moment { Stays IsKept F.moment F.left_since F.holds flash.old flash.new }
    ensures size { F.size flash.new ≡ F.size flash.old }
{
    match zeros(alloc, VOLUME_BYTES) {
        Ok(content) => plan_read(alloc, what, flash, content),
        Err(_) => Plan::NoMemory,
    }
}

/// Lists or checks what an image keeps; its bytes stay. An image in the middle of a write is taken as it will be after a mount.
pub fn plan_inspection<F: Flash>(alloc: Global, what: Inspection, flash: &mut F) -> Plan
    ensures text { IsText (inspection_row what.entry (F.holds flash.old) (F.size flash.old)) (status_of result) (text_of result) }
    ensures cause { FailsAt 7 (status_of result) (F.fault_count flash.old) (F.fault_count flash.new) }
    ensures kept { F.holds flash.new ≡ F.holds flash.old }
    ensures at_any_moment { Stays IsKept F.moment F.left_since F.holds flash.old flash.new }
    ensures size { F.size flash.new ≡ F.size flash.old }
{
    let have = flash.len();
    if have != IMAGE_BYTES {
        let want = IMAGE_BYTES;
        return plan_refused(alloc, ImageFault::ImageSize { have, want });
    }
    plan_image(alloc, what, flash)
}

/// Leaves an image without variables, of which nothing is printed.
pub fn plan_format<F: Flash>(alloc: Global, flash: &mut F) -> Plan
    ensures text { IsText (format_row (F.size flash.old)) (status_of result) (text_of result) }
    ensures cause { FailsAt 7 (status_of result) (F.fault_count flash.old) (F.fault_count flash.new) }
    ensures leaves { LeavesImage (format_row (F.size flash.old)) (status_of result) (F.size flash.old) (F.holds flash.old) (F.holds flash.new) }
    ensures at_any_moment { Stays IsFormatLeft F.moment F.left_since F.holds flash.old flash.new }
    ensures unstreamed { ¬ IsStreamed result }
    ensures size { F.size flash.new ≡ F.size flash.old }
{
    match format_image(flash) {
        Ok(()) => Plan::Print {
            status: 0,
            text: Bytes::new(alloc),
        },
        Err(fault) => plan_fault(alloc, fault),
    }
}
