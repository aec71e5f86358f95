//! Larger matrices of doubles, each of which is answered: no clause says which matrices are.

use mcf_double_solver::{DoubleAssigned, DoubleMatrix, DoublePlanned, Masses, assign, plan};
use mcf_text::NoMemory;
use std::alloc::Global;
use std::test::Fail;

// How 144 doubles scatter: by how many powers of 2 they go down from 1, and the bits of their
// fractions.
type Scatter = (u64, u64);

const ALL: u64 = (1 << 52) - 1;

static SCATTERS: [Scatter; 6] = [(1, 3), (1, ALL), (20, ALL), (64, 0), (66, ALL), (118, ALL)];

// Numbers without a pattern, for a seed.
fn scattered(scatter: Scatter, seed: u64) -> [u64; 144] {
    let (powers, fraction) = scatter;
    let mut entries = [0; 144];
    let mut state = seed;
    for i in 0..144usize {
        state = state
            .wrapping_mul(6_364_136_223_846_793_005)
            .wrapping_add(1_442_695_040_888_963_407);
        let exponent = 1023u64.wrapping_sub((state >> 56) % powers.max(1));
        entries[i] = (exponent << 52) | ((state >> 12) & fraction);
    }
    entries
}

// How many of twenty matrices have a least matching.
fn assigned(alloc: Global, scatter: Scatter, columns: usize) -> Result<u32, NoMemory> {
    let mut count = 0u32;
    'seeds: for seed in 0..20u64 {
        let entries = scattered(scatter, seed);
        let Ok(matrix) = DoubleMatrix::of(&entries, 8, columns, columns) else {
            continue;
        };
        let answer = assign(alloc, &matrix)?;
        count = count.wrapping_add(u32::from(matches!(answer, DoubleAssigned::Least(_))));
    }
    Ok(count)
}

#[test]
fn scattered_doubles_are_assigned(rt: HostRuntime) -> Result<(), Fail> {
    for scatter in &SCATTERS {
        for columns in [8, 18, 5] {
            assert_eq!(rt; assigned(rt.alloc(), *scatter, columns)?, 20);
        }
    }
    Ok(())
}

// How many of twenty matrices of 8 rows and 6 columns have a least plan.
fn planned(alloc: Global, scatter: Scatter) -> Result<u32, NoMemory> {
    let masses = Masses {
        supplies: &[3, 5, 0, 7, 1, 2, 4, 8],
        demands: &[6, 0, 9, 2, 5, 8],
    };
    let mut count = 0u32;
    'seeds: for seed in 0..20u64 {
        let entries = scattered(scatter, seed);
        let Ok(matrix) = DoubleMatrix::of(&entries, 8, 6, 18) else {
            continue;
        };
        let answer = plan(alloc, &matrix, &masses)?;
        count = count.wrapping_add(u32::from(matches!(answer, DoublePlanned::Least(_))));
    }
    Ok(count)
}

#[test]
fn scattered_doubles_are_planned(rt: HostRuntime) -> Result<(), Fail> {
    for scatter in &SCATTERS {
        assert_eq!(rt; planned(rt.alloc(), *scatter)?, 20);
    }
    Ok(())
}
