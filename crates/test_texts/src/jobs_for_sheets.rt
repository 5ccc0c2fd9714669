// Jobs of any version, the places of faults, and cuts at a number of decimals.
ghost use Rattle.std.specs.Prelude.{◌<◌, ◌^◌, length};

use job_file::{JobFault, Key, Paper, Principal, is_title};
use job_text::TextPlace;
use lattice::{Axis, ViewSpec};
use sheet_job::{
    AnyJob, AnyJobError, AtError, JobFlaw, PlacedFlaw, SheetKey, ViewFlaw, read_any_job,
};
use std::alloc::Global;

const INCHES: &str =
    "version = 3\nunit = 'inch'\n[block]\nnumber = 'A-17'\n[[view]]\ncut = 'y'\nat = -0.5\nfrom = 'low'\ntitle = 'wall'\nhidden = true\n";

fn is_at(placed: &PlacedFlaw, line: u32, column: u32) -> bool {
    placed.place == TextPlace { line, column }
}

/// The flaw of bytes that are no job of version 3.
fn flaw_of(alloc: Global, bytes: &[u8]) -> Option<PlacedFlaw>
    requires { length bytes.now < 2 ^ 31 }
{
    match read_any_job(alloc, bytes) {
        Err(AnyJobError::Own(placed)) => Some(placed),
        _ => None,
    }
}

/// The plane across y from the low side is at so many units.
fn is_across_y(spec: ViewSpec, units: i64) -> bool {
    match spec {
        ViewSpec::Section(cut) => { cut.axis() == Axis::Y && cut.at() == units && !cut.from_high() }
        ViewSpec::Plain(_) => false,
    }
}

#[test]
fn job_of_inches(rt: HostRuntime) {
    let Ok(AnyJob::Own(job)) = read_any_job(rt.alloc(), INCHES.as_bytes()) else {
        panic!(rt; "no job");
    };
    assert!(rt; job.decimals.is_none() && job.title.is_none());
    assert!(rt; job.block.number.as_str() == "A-17" && job.block.note.as_str() == "");
    assert!(rt; job.views.len() == 1 && job.views[0].title.as_str() == "wall");
    assert!(rt; job.views[0].hidden == Some(true));
    let title = "lid";
    if !is_title(title) {
        panic!(rt; "no title");
    }
    match job.job_at(rt.alloc(), 3, title) {
        Ok(made) => {
            assert!(rt; made.decimals == 3 && made.title.as_str() == "lid");
            assert!(rt; made.views.len() == 1 && is_across_y(made.views[0].spec, -12700));
        }
        Err(_) => panic!(rt; "no job at 3 decimals"),
    }
    match job.job_at(rt.alloc(), 5, title) {
        Err(AtError::Range(placed)) => {
            assert!(rt; matches!(placed.flaw, JobFlaw::AtRange(0)) && is_at(&placed, 7, 6));
        }
        _ => panic!(rt; "a cut at 1,270,000 units"),
    }
}

#[test]
fn flaws_of_jobs(rt: HostRuntime) {
    match flaw_of(
        rt.alloc(),
        b"version = 3\ntitle = 'gr\xC3\xB6\xC3\x9Fer' # \xC3\xA9\ndecimals = '3'\n",
    ) {
        Some(placed) => assert!(rt;
            matches!(placed.flaw, JobFlaw::Wrong(SheetKey::Decimals, true, None))
                && is_at(&placed, 3, 12)
        ),
        None => panic!(rt; "no flaw"),
    }
    match flaw_of(rt.alloc(), b"title = '\xC3\xA9\xFF'\n") {
        Some(placed) => assert!(rt;
            matches!(placed.flaw, JobFlaw::NotUtf8) && is_at(&placed, 1, 11)
        ),
        None => panic!(rt; "no flaw"),
    }
    match flaw_of(rt.alloc(), b"version = 3\n\n version = 3\n") {
        Some(placed) => assert!(rt;
            matches!(placed.flaw, JobFlaw::Refused) && is_at(&placed, 3, 2)
        ),
        None => panic!(rt; "no flaw"),
    }
    match flaw_of(
        rt.alloc(),
        b"version = 3\n[[view]]\nname = 'left'\n[[view]]\nname = 'left'\n",
    ) {
        Some(placed) => assert!(rt;
            matches!(
                placed.flaw,
                JobFlaw::View(ViewFlaw::NameTaken, 1, Some(Principal::Left))
            ) && is_at(&placed, 5, 8)
        ),
        None => panic!(rt; "no flaw"),
    }
}

/// The text is a job with this paper, and any paper will do, or not.
fn has_paper(alloc: Global, bytes: &[u8], paper: Paper, any: bool) -> bool
    requires { length bytes.now < 2 ^ 31 }
{
    match read_any_job(alloc, bytes) {
        Ok(AnyJob::Own(job)) => job.paper == paper && job.any_paper == any,
        _ => false,
    }
}

#[test]
fn sheets_of_jobs(rt: HostRuntime) {
    let alloc = rt.alloc();
    assert!(rt; has_paper(alloc, b"version = 3\n", Paper::A3, false));
    assert!(rt; has_paper(alloc, b"version = 3\nsheet = 'A4'\n", Paper::A4, false));
    assert!(rt; has_paper(alloc, b"version = 3\nsheet = 'fit'\n", Paper::A3, true));
    match flaw_of(alloc, b"version = 3\nsheet = 'Fit'\n") {
        Some(placed) => assert!(rt;
            matches!(placed.flaw, JobFlaw::Wrong(SheetKey::Sheet, false, None))
                && is_at(&placed, 2, 9)
        ),
        None => panic!(rt; "no flaw"),
    }
    match read_any_job(alloc, b"version = 2\nsheet = 'fit'\n") {
        Err(AnyJobError::Older(JobFault::Wrong(Key::Sheet))) => {}
        _ => panic!(rt; "a job of version 2 for any paper"),
    }
}

#[test]
fn jobs_of_other_versions(rt: HostRuntime) {
    match read_any_job(rt.alloc(), b"version = 2\ndecimals = 4\n") {
        Ok(AnyJob::Older(job)) => assert!(rt; job.decimals == 4),
        _ => panic!(rt; "no job of version 2"),
    }
    match read_any_job(rt.alloc(), b"version = 4\n") {
        Err(AnyJobError::Older(JobFault::Version(4))) => {}
        _ => panic!(rt; "a job of version 4"),
    }
}
