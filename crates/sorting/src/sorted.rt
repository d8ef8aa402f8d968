ghost use Rattle.std.specs.Prelude.{IfOk, option_map};
ghost use Rattle.sorting.specs.Sorted.{Sorted};

use contractor::layers::{Then, Until};
use contractor::rules::Widest;
use narrowing::pass::GaussSeidel;
use narrowing::test::RowTest;
use report::ranges::{Head, Report, ranges_report};
use run::lists::Lists;
use run::method::Method;
use runlaw::shape::{Cause, Filed};
use sheet::sheet::Sheet;
use solving::solve::solve;
use span::shape::Reach;
use std::alloc::{AllocError, Global};

// Each list has so many places.
const PLACES: usize = 64;

// A run is stopped at so many settled boxes.
const LIMIT: u32 = 10000;

/// The run of an accepted sheet to its end, as the report tells it; none where no run can be opened.
pub fn sorted(alloc: Global, sheet: &Sheet) -> Result<Option<Vec<u8>>, AllocError>
    ensures { IfOk result (λ r. Sorted sheet.now (option_map (λ v. v.items) r)) }
{
    let Some(start) = sheet.start() else {
        return Ok(None);
    };
    let system = sheet.system();
    let mut pending = [start; PLACES];
    let mut feasible = [start; PLACES];
    let mut undecided = [Filed {
        region: start,
        cause: Cause::Small,
    }; PLACES];
    let lists = Lists::over(&mut pending, &mut feasible, &mut undecided);
    let method = Method {
        contractor: Until {
            inner: Then {
                first: RowTest,
                second: GaussSeidel,
            },
            most: 4,
        },
        rule: Widest,
    };
    let Ok(ended) = solve::<_, _, Reach>(&system, start, sheet.tolerance(), LIMIT, lists, &method)
    else {
        return Ok(None);
    };
    let report = Report {
        head: Head {
            verdict: ended.run.verdict(),
            steps: ended.run.settled(),
            stop: ended.stop.number(),
        },
        variables: sheet.variables(),
        feasible: ended.run.feasible(),
        undecided: ended.run.undecided(),
        pending: ended.run.pending(),
    };
    Ok(Some(ranges_report(alloc, &report)?))
}
