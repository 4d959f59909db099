//! The lines of reports.

ghost use Rattle.std.specs.Prelude.{◌≡◌, ◌++◌, OnOk, flat_map};
ghost use Rattle.gf_session_run.specs.Reports.{cause_word, counts_line, refused_line, report_lines};
ghost use Rattle.gf_session_run.specs.Reports.{report_text, site_text};

use gf_base::push_number;
use gf_session::Done;
use gf_site::Cause;
use gf_worker::{Refused, Report};
use std::alloc::AllocError;

/// Appends the lines of each site.
pub(crate) fn push_reports(out: &mut Vec<u8>, dones: &[Done]) -> Result<(), AllocError>
    ensures { OnOk result (out.new.items ≡ out.old.items ++ report_text dones.now) }
{
    for done in dones {
        push_report(out, done.site.number(), &done.report)?;
    }
    Ok(())
}

/// Appends how many commands of a site were accepted and refused, and a line for each refused one.
fn push_report(out: &mut Vec<u8>, site: u8, report: &Report) -> Result<(), AllocError>
    ensures { OnOk result (out.new.items ≡ out.old.items ++ report_lines site report.now) }
{
    push_counts(out, site, report)?;
    push_refusals(out, site, report.refused.as_slice())
}

#[tactic(auto, unfolding(crate::specs::Reports::counts_line))]
fn push_counts(out: &mut Vec<u8>, site: u8, report: &Report) -> Result<(), AllocError>
    ensures { OnOk result (out.new.items ≡ out.old.items ++ counts_line site report.now) }
{
    push_site(out, site)?;
    out.extend_from_slice(b" accepted ")?;
    push_number(out, report.accepted.len())?;
    out.extend_from_slice(b" refused ")?;
    push_number(out, report.refused.len())?;
    out.push(b'\n')?;
    Ok(())
}

fn push_refusals(out: &mut Vec<u8>, site: u8, refused: &[Refused]) -> Result<(), AllocError>
    ensures { OnOk result (
        out.new.items ≡ out.old.items ++ flat_map (refused_line site) refused.now) }
{
    for one in refused {
        push_refused(out, site, *one)?;
    }
    Ok(())
}

#[tactic(auto, unfolding(crate::specs::Reports::refused_line))]
fn push_refused(out: &mut Vec<u8>, site: u8, refused: Refused) -> Result<(), AllocError>
    ensures { OnOk result (out.new.items ≡ out.old.items ++ refused_line site refused) }
{
    push_site(out, site)?;
    out.extend_from_slice(b" command ")?;
    push_number(out, refused.command)?;
    out.push(b' ')?;
    out.extend_from_slice(cause_word(refused.cause))?;
    out.push(b'\n')?;
    Ok(())
}

fn push_site(out: &mut Vec<u8>, site: u8) -> Result<(), AllocError>
    ensures { OnOk result (out.new.items ≡ out.old.items ++ site_text site) }
{
    out.extend_from_slice(b"site ")?;
    push_number(out, site)
}

fn cause_word(cause: Cause) -> &'static [u8]
    ensures { result.now ≡ cause_word cause }
{
    match cause {
        Cause::Exhausted => b"Exhausted",
        Cause::Range => b"Range",
        Cause::NoObject => b"NoObject",
        Cause::WrongKind => b"WrongKind",
        Cause::BadAim => b"BadAim",
        Cause::OwnId => b"OwnId",
        Cause::NeverComes => b"NeverComes",
    }
}
