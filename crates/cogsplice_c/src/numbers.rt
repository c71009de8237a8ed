// 01's numbers of each answer.
ghost use Rattle.std.specs.Prelude.{◌≡◌};
ghost use Rattle.network.specs.File.{number_told};
ghost use Rattle.cogsplice_c.specs.Told.{check_numbers, totals_numbers, write_numbers, index_numbers, level_numbers, finding_numbers, layers_numbers, equal_numbers, common_numbers};
ghost use Rattle.cogsplice_c.specs.Parts.{parts};

use crate::{
    CheckNumbers, CommonNumbers, EqualNumbers, FindingNumbers, IndexNumbers, LayersNumbers,
    LevelNumbers, TotalsNumbers, WriteNumbers,
};
use cogsplice::{CommonTotals, Extent, Refusal, Ring, Totals};

const NO_TOTALS: Totals = Totals {
    edges: 0,
    sources: 0,
    targets: 0,
};

const NO_RING: Ring = Ring {
    x: 0,
    y: 0,
    equal: 0,
    totals: NO_TOTALS,
};

const NOTHING_IN_COMMON: CommonTotals = CommonTotals {
    both: 0,
    first_only: 0,
    second_only: 0,
};

// The number of a refusal, or 0.
pub fn number_told(refusal: Option<Refusal>) -> u16
    ensures { result ≡ number_told refusal }
{
    match refusal {
        Some(refusal) => refusal.number(),
        None => 0,
    }
}

// The refusal's number, its link's and the values: zeros for what an answer does not tell.
fn parts<T: Copy>(answer: Result<T, Refusal>, zeros: T) -> (u16, u16, T)
    ensures { result ≡ parts answer zeros }
{
    match answer {
        Ok(values) => (0, 0, values),
        Err(refusal) => (refusal.number(), refusal.link().unwrap_or(0), zeros),
    }
}

impl From<Result<Extent, Refusal>> for CheckNumbers {
    ghost from_gives = { λ a n. n ≡ check_numbers a };

    fn from(answer: Result<Extent, Refusal>) -> CheckNumbers {
        let (refusal, link, extent) = parts(answer, Extent { order: 0, size: 0 });
        CheckNumbers {
            refusal,
            link,
            n: extent.order,
            m: extent.size,
        }
    }
}

impl From<Result<Totals, Refusal>> for TotalsNumbers {
    ghost from_gives = { λ a n. n ≡ totals_numbers a };

    fn from(answer: Result<Totals, Refusal>) -> TotalsNumbers {
        let (refusal, link, totals) = parts(answer, NO_TOTALS);
        TotalsNumbers {
            refusal,
            link,
            edges: totals.edges,
            sources: totals.sources,
            targets: totals.targets,
        }
    }
}

impl From<Result<usize, Refusal>> for WriteNumbers {
    ghost from_gives = { λ a n. n ≡ write_numbers a };

    fn from(answer: Result<usize, Refusal>) -> WriteNumbers {
        let (refusal, link, m) = parts(answer, 0);
        WriteNumbers { refusal, link, m }
    }
}

impl From<Result<(), Refusal>> for IndexNumbers {
    ghost from_gives = { λ a n. n ≡ index_numbers a };

    fn from(answer: Result<(), Refusal>) -> IndexNumbers {
        let (refusal, link, ()) = parts(answer, ());
        IndexNumbers { refusal, link }
    }
}

impl From<Result<usize, Refusal>> for LevelNumbers {
    ghost from_gives = { λ a n. n ≡ level_numbers a };

    fn from(answer: Result<usize, Refusal>) -> LevelNumbers {
        let (refusal, link, level) = parts(answer, 0);
        LevelNumbers {
            refusal,
            link,
            level,
        }
    }
}

impl From<Result<Ring, Refusal>> for FindingNumbers {
    ghost from_gives = { λ a n. n ≡ finding_numbers a };

    fn from(answer: Result<Ring, Refusal>) -> FindingNumbers {
        let (refusal, link, ring) = parts(answer, NO_RING);
        FindingNumbers {
            refusal,
            link,
            edges: ring.totals.edges,
            x: ring.x,
            y: ring.y,
            equal: ring.equal,
            sources: ring.totals.sources,
            targets: ring.totals.targets,
        }
    }
}

impl From<Result<usize, Refusal>> for LayersNumbers {
    ghost from_gives = { λ a n. n ≡ layers_numbers a };

    fn from(answer: Result<usize, Refusal>) -> LayersNumbers {
        let (refusal, link, layers) = parts(answer, 0);
        LayersNumbers {
            refusal,
            link,
            layers,
        }
    }
}

impl From<Result<bool, Refusal>> for EqualNumbers {
    ghost from_gives = { λ a n. n ≡ equal_numbers a };

    fn from(answer: Result<bool, Refusal>) -> EqualNumbers {
        let (refusal, _, equal) = parts(answer, false);
        EqualNumbers { refusal, equal }
    }
}

impl From<Result<CommonTotals, Refusal>> for CommonNumbers {
    ghost from_gives = { λ a n. n ≡ common_numbers a };

    fn from(answer: Result<CommonTotals, Refusal>) -> CommonNumbers {
        let (refusal, link, totals) = parts(answer, NOTHING_IN_COMMON);
        CommonNumbers {
            refusal,
            link,
            both: totals.both,
            first_only: totals.first_only,
            second_only: totals.second_only,
        }
    }
}
