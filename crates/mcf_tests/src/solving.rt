//! Worked instances solved.
//!
//! Rows stand in statics, and a row is judged by a function that answers whether it holds: a test
//! of many assertions, or one that makes its rows, takes long to prove.
use mcf_checker::{Verdict, check};
use mcf_solver::{BlockSize, Choice, EngineChoice, Form, Kind, PricingChoice, solve_text};
use mcf_text::{NoMemory, put_number};
use std::alloc::Global;
use std::test::Fail;

// A choice.
struct Way {
    engine: EngineChoice,
    pricing: PricingChoice,
    block: u32,
}

// Every engine, and the simplex with each rule and with blocks of several sizes.
static WAYS: [Way; 12] = [
    Way {
        engine: EngineChoice::Auto,
        pricing: PricingChoice::Block,
        block: 256,
    },
    Way {
        engine: EngineChoice::Cancel,
        pricing: PricingChoice::Block,
        block: 256,
    },
    Way {
        engine: EngineChoice::Scaling,
        pricing: PricingChoice::Block,
        block: 256,
    },
    Way {
        engine: EngineChoice::Fast,
        pricing: PricingChoice::Block,
        block: 256,
    },
    Way {
        engine: EngineChoice::Sap,
        pricing: PricingChoice::Best,
        block: 256,
    },
    Way {
        engine: EngineChoice::Simplex,
        pricing: PricingChoice::First,
        block: 256,
    },
    Way {
        engine: EngineChoice::Simplex,
        pricing: PricingChoice::Best,
        block: 256,
    },
    Way {
        engine: EngineChoice::Simplex,
        pricing: PricingChoice::Wide,
        block: 256,
    },
    Way {
        engine: EngineChoice::Simplex,
        pricing: PricingChoice::Block,
        block: 1,
    },
    Way {
        engine: EngineChoice::Simplex,
        pricing: PricingChoice::Block,
        block: 2,
    },
    Way {
        engine: EngineChoice::Simplex,
        pricing: PricingChoice::Block,
        block: 256,
    },
    Way {
        engine: EngineChoice::Simplex,
        pricing: PricingChoice::Block,
        block: 1_000_000,
    },
];

// The choice that a way names, if its block has a size that a block may have, or none.
fn choice_of(way: &Way) -> Option<Choice> {
    Some(Choice {
        engine: way.engine,
        pricing: way.pricing,
        block: BlockSize::new(way.block)?,
        form: Form::One,
    })
}

// A size, and whether a block may have it.
static SIZES: [(u32, bool); 6] = [
    (0, false),
    (1, true),
    (256, true),
    (1_000_000, true),
    (1_000_001, false),
    (4_294_967_295, false),
];

// Whether a block of this size may be, and then has it.
fn is_size(size: u32, may_be: bool) -> bool {
    match BlockSize::new(size) {
        Some(block) => may_be && block.get() == size,
        None => !may_be,
    }
}

#[test]
fn sizes_of_blocks(rt: HostRuntime) -> Result<(), Fail> {
    for (size, may_be) in &SIZES {
        assert!(rt; is_size(*size, *may_be), "at {size}");
    }
    let choice = Choice::default();
    assert!(rt; choice.engine == EngineChoice::Auto && choice.pricing == PricingChoice::Block);
    assert!(rt; choice.block == BlockSize::standard() && choice.form == Form::One);
    Ok(())
}

// An instance, its answer, and what kind of answer that is.
struct Worked {
    kind: Kind,
    instance: &'static str,
    answer: &'static str,
}

static WORKED: [Worked; 23] = [
    Worked {
        kind: Kind::Flow,
        instance: "p min 4 5\nn 1 4\nn 4 -4\na 1 2 0 4 2\na 1 3 0 2 2\na 2 3 0 2 1\na 2 4 0 3 3\na 3 4 0 5 1\n",
        answer: "s 14\nf 1 2 2\nf 1 3 2\nf 2 3 2\nf 2 4 0\nf 3 4 4\ny 1 0\ny 2 -2\ny 3 -3\ny 4 -4\n",
    },
    Worked {
        kind: Kind::Flow,
        instance: "p min 0 0\n",
        answer: "s 0\n",
    },
    Worked {
        kind: Kind::Flow,
        instance: "p asn 0 0\n",
        answer: "s 0\n",
    },
    Worked {
        kind: Kind::Flow,
        instance: "p min 1 1\na 1 1 0 7 -3\n",
        answer: "s -21\nf 1 1 7\ny 1 0\n",
    },
    Worked {
        kind: Kind::Flow,
        instance: "p min 2 2\nn 1 3\nn 2 -3\na 1 2 0 2 1\na 1 2 0 2 5\n",
        answer: "s 7\nf 1 2 2\nf 1 2 1\ny 1 0\ny 2 -5\n",
    },
    Worked {
        kind: Kind::Flow,
        instance: "p min 2 1\nn 1 4\nn 2 -4\na 1 2 4 4 -2\n",
        answer: "s -8\nf 1 2 4\ny 1 0\ny 2 0\n",
    },
    Worked {
        kind: Kind::Flow,
        instance: "p min 2 1\nn 1 -3\nn 2 3\na 1 2 -3 -3 1\n",
        answer: "s -3\nf 1 2 -3\ny 1 0\ny 2 0\n",
    },
    Worked {
        kind: Kind::Flow,
        instance: "p asn 4 4\nn 1\nn 2\na 1 3 5\na 1 4 1\na 2 3 2\na 2 4 1\n",
        answer: "s 3\nf 1 3 0\nf 1 4 1\nf 2 3 1\nf 2 4 0\ny 1 0\ny 2 0\ny 3 -2\ny 4 -1\n",
    },
    Worked {
        kind: Kind::Flow,
        instance: "p asn 4 4\nn 1\nn 2\na 1 3 5\na 1 4 1\na 2 3 2\na 2 4 -9\n",
        answer: "s -4\nf 1 3 1\nf 1 4 0\nf 2 3 0\nf 2 4 1\ny 1 0\ny 2 -3\ny 3 -5\ny 4 0\n",
    },
    Worked {
        kind: Kind::Flow,
        instance: "p min 2 1\nn 1 1000000000000000\nn 2 -1000000000000000\na 1 2 0 1000000000000000 1000000000000\n",
        answer: "s 1000000000000000000000000000\nf 1 2 1000000000000000\ny 1 0\ny 2 -1000000000000\n",
    },
    Worked {
        kind: Kind::Flow,
        instance: "p min 2 2\na 1 2 0 1000000000000000 -1\na 2 1 0 1000000000000000 0\n",
        answer: "s -1000000000000000\nf 1 2 1000000000000000\nf 2 1 1000000000000000\ny 1 0\ny 2 0\n",
    },
    Worked {
        kind: Kind::Flow,
        instance: "p min 3 4\na 1 2 0 5 0\na 2 3 0 5 0\na 3 1 0 5 0\na 1 3 0 5 -1\n",
        answer: "s -5\nf 1 2 0\nf 2 3 0\nf 3 1 5\nf 1 3 5\ny 1 0\ny 2 0\ny 3 0\n",
    },
    Worked {
        kind: Kind::Flow,
        instance: "p min 3 3\nn 1 5\nn 3 -5\na 1 2 2 10 3\na 2 3 0 10 1\na 1 3 0 10 2\n",
        answer: "s 14\nf 1 2 2\nf 2 3 2\nf 1 3 3\ny 1 0\ny 2 -1\ny 3 -2\n",
    },
    Worked {
        kind: Kind::Flow,
        instance: "c sample\r\n\r\n\tp min 2 1\r\nn 01 +3\nn 2 -003\na 1 2 0 4 7",
        answer: "s 21\nf 1 2 3\ny 1 0\ny 2 -7\n",
    },
    Worked {
        kind: Kind::Blocked,
        instance: "p min 1 0\nn 1 -1\n",
        answer: "i 1 take\nx 1\n",
    },
    Worked {
        kind: Kind::Blocked,
        instance: "p min 2 1\nn 1 3\nn 2 -3\na 1 2 0 2 1\n",
        answer: "i 1 send\nx 1\n",
    },
    Worked {
        kind: Kind::Blocked,
        instance: "p min 2 2\na 1 2 2 5 1\na 2 1 0 1 0\n",
        answer: "i 1 send\nx 2\n",
    },
    Worked {
        kind: Kind::Blocked,
        instance: "p asn 4 2\nn 1\nn 2\na 1 3 1\na 2 3 1\n",
        answer: "i 3 send\nx 1\nx 2\nx 3\n",
    },
    Worked {
        kind: Kind::Blocked,
        instance: "p asn 3 2\nn 1\nn 2\na 1 3 4\na 2 3 4\n",
        answer: "i 3 send\nx 1\nx 2\nx 3\n",
    },
    Worked {
        kind: Kind::Blocked,
        instance: "p min 2 1\nn 1 2\na 1 2 0 5 1\n",
        answer: "i 2 send\nx 1\nx 2\n",
    },
    Worked {
        kind: Kind::Refused,
        instance: "",
        answer: "r 1 no-p\n",
    },
    Worked {
        kind: Kind::Refused,
        instance: "p min 2 1\na 1 2 -3 -3 1\nn 1 -3\n",
        answer: "r 3 late-n\n",
    },
    Worked {
        kind: Kind::Refused,
        instance: "p min 2 2\na 1 2 0 1 1\n",
        answer: "r 3 missing\n",
    },
];

// Numbers past `former_limits`, and at `limits`.
static GREATEST: [Worked; 8] = [
    Worked {
        kind: Kind::Flow,
        instance: "p min 2 1\na 1 2 0 1000000000000001 0\n",
        answer: "s 0\nf 1 2 0\ny 1 0\ny 2 0\n",
    },
    Worked {
        kind: Kind::Flow,
        instance: "p min 2 1\na 1 2 0 1 -1000000000001\n",
        answer: "s 0\nf 1 2 0\ny 1 -1000000000001\ny 2 0\n",
    },
    Worked {
        kind: Kind::Flow,
        instance: "p min 2 1\nn 1 1000000000000000000\nn 2 -1000000000000000000\na 1 2 0 1000000000000000000 1000000000000000\n",
        answer: "s 1000000000000000000000000000000000\nf 1 2 1000000000000000000\ny 1 0\ny 2 -1000000000000000\n",
    },
    Worked {
        kind: Kind::Flow,
        instance: "p min 2 1\nn 1 -1000000000000000000\nn 2 1000000000000000000\na 1 2 -1000000000000000000 -1000000000000000000 -1000000000000000\n",
        answer: "s 1000000000000000000000000000000000\nf 1 2 -1000000000000000000\ny 1 0\ny 2 0\n",
    },
    Worked {
        kind: Kind::Flow,
        instance: "p min 2 2\na 1 2 -1000000000000000000 1000000000000000000 -1000000000000000\n\
            a 2 1 -1000000000000000000 1000000000000000000 -1000000000000000\n",
        answer: "s -2000000000000000000000000000000000\nf 1 2 1000000000000000000\nf 2 1 1000000000000000000\ny 1 0\ny 2 0\n",
    },
    Worked {
        kind: Kind::Flow,
        instance: "p min 4 3\nn 1 1000000000000000000\nn 4 -1000000000000000000\n\
            a 1 2 0 1000000000000000000 1000000000000000\na 2 3 0 1000000000000000000 1000000000000000\n\
            a 3 4 0 1000000000000000000 1000000000000000\n",
        answer: "s 3000000000000000000000000000000000\nf 1 2 1000000000000000000\nf 2 3 1000000000000000000\n\
            f 3 4 1000000000000000000\ny 1 0\ny 2 -1000000000000000\ny 3 -2000000000000000\ny 4 -3000000000000000\n",
    },
    Worked {
        kind: Kind::Flow,
        instance: "p asn 4 4\nn 1\nn 2\na 1 3 1000000000000000\na 1 4 -1000000000000000\na 2 3 -1000000000000000\na 2 4 1000000000000000\n",
        answer: "s -2000000000000000\nf 1 3 0\nf 1 4 1\nf 2 3 1\nf 2 4 0\ny 1 0\ny 2 0\ny 3 0\ny 4 0\n",
    },
    Worked {
        kind: Kind::Blocked,
        instance: "p min 2 1\nn 1 1000000000000000000\nn 2 -1000000000000000000\na 1 2 -1000000000000000000 999999999999999999 1000000000000000\n",
        answer: "i 1 send\nx 1\n",
    },
];

// Answers of the sparse form; those without a flow have one form.
static SPARSE: [Worked; 6] = [
    Worked {
        kind: Kind::Flow,
        instance: "p min 4 5\nn 1 4\nn 4 -4\na 1 2 0 4 2\na 1 3 0 2 2\na 2 3 0 2 1\na 2 4 0 3 3\na 3 4 0 5 1\n",
        answer: "v 2\ns 14\ng 1 2\ng 2 2\ng 3 2\ng 5 4\ny 1 0\ny 2 -2\ny 3 -3\ny 4 -4\n",
    },
    Worked {
        kind: Kind::Flow,
        instance: "p min 0 0\n",
        answer: "v 2\ns 0\n",
    },
    Worked {
        kind: Kind::Blocked,
        instance: "p min 2 1\nn 1 3\nn 2 -3\na 1 2 0 2 1\n",
        answer: "i 1 send\nx 1\n",
    },
    Worked {
        kind: Kind::Flow,
        instance: "p min 1 1\na 1 1 0 7 -3\n",
        answer: "v 2\ns -21\ng 1 7\ny 1 0\n",
    },
    Worked {
        kind: Kind::Flow,
        instance: "p min 3 3\nn 1 5\nn 3 -5\na 1 2 2 10 3\na 2 3 0 10 1\na 1 3 0 10 2\n",
        answer: "v 2\ns 14\ng 2 2\ng 3 3\ny 1 0\ny 2 -1\ny 3 -2\n",
    },
    Worked {
        kind: Kind::Flow,
        instance: "p min 2 1\na 1 2 -1 5 1\n",
        answer: "v 2\ns 0\ng 1 0\ny 1 0\ny 2 -1\n",
    },
];

/// What is written of an instance by an engine, after bytes that were there.
pub fn answered(
    alloc: Global,
    before: &[u8],
    instance: &[u8],
    engine: EngineChoice,
) -> Result<(Kind, Vec<u8>), NoMemory> {
    let choice = Choice {
        engine,
        ..Choice::default()
    };
    answered_by(alloc, before, instance, choice)
}

// What is written of an instance by a choice, after bytes that were there.
fn answered_by(
    alloc: Global,
    before: &[u8],
    instance: &[u8],
    choice: Choice,
) -> Result<(Kind, Vec<u8>), NoMemory> {
    let mut out = Vec::new(alloc);
    out.extend_from_slice(before)?;
    let kind = solve_text(alloc, instance, choice, &mut out)?;
    Ok((kind, out))
}

// The same choice, with the sparse form of a flow.
fn with_second_form(choice: Choice) -> Choice {
    Choice {
        form: Form::Two,
        ..choice
    }
}

// Whether an instance is answered so by a choice of a way, after bytes that were there.
fn is_answered(alloc: Global, worked: &Worked, way: &Way) -> Result<bool, NoMemory> {
    let Some(choice) = choice_of(way) else {
        return Ok(false);
    };
    is_answered_by(alloc, worked, choice)
}

// Whether an instance is answered so by a choice, after bytes that were there.
fn is_answered_by(alloc: Global, worked: &Worked, choice: Choice) -> Result<bool, NoMemory> {
    let before = b"kept\n".as_slice();
    let (kind, out) = answered_by(alloc, before, worked.instance.as_bytes(), choice)?;
    let answer = out.strip_prefix(before);
    Ok(kind == worked.kind && answer == Some(worked.answer.as_bytes()))
}

// Whether the checker accepts the answer.
fn is_accepted(alloc: Global, worked: &Worked) -> Result<bool, NoMemory> {
    let verdict = check(alloc, worked.instance.as_bytes(), worked.answer.as_bytes())?;
    Ok(matches!(
        verdict,
        Verdict::Flow(_) | Verdict::Blocked(_) | Verdict::Refused(_)
    ))
}

// Whether it is answered so by each choice with the sparse form.
fn is_sparse(alloc: Global, worked: &Worked) -> Result<bool, NoMemory> {
    for way in &WAYS {
        let Some(choice) = choice_of(way) else {
            return Ok(false);
        };
        if !is_answered_by(alloc, worked, with_second_form(choice))? {
            return Ok(false);
        }
    }
    is_accepted(alloc, worked)
}

// Whether the checker says of the answer with the sparse form, by a way, what it says of the answer
// that is given.
fn is_accepted_alike(alloc: Global, worked: &Worked, way: &Way) -> Result<bool, NoMemory> {
    let Some(choice) = choice_of(way) else {
        return Ok(false);
    };
    let instance = worked.instance.as_bytes();
    let (kind, out) = answered_by(alloc, b"", instance, with_second_form(choice))?;
    let first = check(alloc, instance, worked.answer.as_bytes())?;
    let second = check(alloc, instance, &out)?;
    Ok(kind == worked.kind && first == second)
}

// Whether that is so by each way.
fn is_alike(alloc: Global, worked: &Worked) -> Result<bool, NoMemory> {
    for way in &WAYS {
        if !is_accepted_alike(alloc, worked, way)? {
            return Ok(false);
        }
    }
    Ok(true)
}

// Whether it is answered so by each choice, and the checker accepts it.
fn is_right(alloc: Global, worked: &Worked) -> Result<bool, NoMemory> {
    for way in &WAYS {
        if !is_answered(alloc, worked, way)? {
            return Ok(false);
        }
    }
    is_accepted(alloc, worked)
}

// Each answer comes after the bytes that were there, and the checker accepts it.
#[test]
fn worked_instances(rt: HostRuntime) -> Result<(), Fail> {
    for worked in &WORKED {
        assert!(rt; is_right(rt.alloc(), worked)?, "at {}", worked.instance);
    }
    Ok(())
}

#[test]
fn the_greatest_numbers(rt: HostRuntime) -> Result<(), Fail> {
    for worked in &GREATEST {
        assert!(rt; is_right(rt.alloc(), worked)?, "at {}", worked.instance);
    }
    Ok(())
}

// Answers of the sparse form, and that of each worked instance is accepted as its first form is.
#[test]
fn answers_of_the_second_form(rt: HostRuntime) -> Result<(), Fail> {
    for worked in &SPARSE {
        assert!(rt; is_sparse(rt.alloc(), worked)?, "at {}", worked.instance);
    }
    for worked in &WORKED {
        assert!(rt; is_alike(rt.alloc(), worked)?, "at {}", worked.instance);
    }
    Ok(())
}

#[test]
fn the_greatest_numbers_in_the_second_form(rt: HostRuntime) -> Result<(), Fail> {
    for worked in &GREATEST {
        assert!(rt; is_alike(rt.alloc(), worked)?, "at {}", worked.instance);
    }
    Ok(())
}

// Rows of which each allocation is refused in turn, by `scripts/refuse_memory.py`: a flow, a set
// that must take, a matching, two rows with one column, a cycle that earns, and a second line of
// one node.
static SIX_ROWS: [Worked; 6] = [
    Worked {
        kind: Kind::Flow,
        instance: "p min 4 5\nn 1 4\nn 4 -4\na 1 2 0 4 2\na 1 3 0 2 2\na 2 3 0 2 1\na 2 4 0 3 3\na 3 4 0 5 1\n",
        answer: "s 14\nf 1 2 2\nf 1 3 2\nf 2 3 2\nf 2 4 0\nf 3 4 4\ny 1 0\ny 2 -2\ny 3 -3\ny 4 -4\n",
    },
    Worked {
        kind: Kind::Blocked,
        instance: "p min 1 0\nn 1 -1\n",
        answer: "i 1 take\nx 1\n",
    },
    Worked {
        kind: Kind::Flow,
        instance: "p asn 4 4\nn 1\nn 2\na 1 3 5\na 1 4 1\na 2 3 2\na 2 4 1\n",
        answer: "s 3\nf 1 3 0\nf 1 4 1\nf 2 3 1\nf 2 4 0\ny 1 0\ny 2 0\ny 3 -2\ny 4 -1\n",
    },
    Worked {
        kind: Kind::Blocked,
        instance: "p asn 4 2\nn 1\nn 2\na 1 3 1\na 2 3 1\n",
        answer: "i 3 send\nx 1\nx 2\nx 3\n",
    },
    Worked {
        kind: Kind::Flow,
        instance: "p min 3 4\na 1 2 0 5 0\na 2 3 0 5 0\na 3 1 0 5 0\na 1 3 0 5 -1\n",
        answer: "s -5\nf 1 2 0\nf 2 3 0\nf 3 1 5\nf 1 3 5\ny 1 0\ny 2 0\ny 3 0\n",
    },
    Worked {
        kind: Kind::Refused,
        instance: "p min 2 0\nn 1 5\nn +01 5\n",
        answer: "r 3 twice\n",
    },
];

// Whether an instance is answered so by a way, after bytes that were there; if memory runs out
// these alone are left.
fn keeps_or_answers(alloc: Global, worked: &Worked, way: &Way) -> Result<bool, NoMemory> {
    let Some(choice) = choice_of(way) else {
        return Ok(false);
    };
    let mut out = b"keep".to_vec(alloc)?;
    let outcome = solve_text(alloc, worked.instance.as_bytes(), choice, &mut out);
    match outcome {
        Ok(kind) => {
            let answer = out.strip_prefix(b"keep".as_slice());
            Ok(kind == worked.kind && answer == Some(worked.answer.as_bytes()))
        }
        Err(NoMemory) if out.as_slice() == b"keep".as_slice() => Err(NoMemory),
        Err(NoMemory) => Ok(false),
    }
}

#[test]
fn six_rows_solved(rt: HostRuntime) -> Result<(), Fail> {
    for worked in &SIX_ROWS {
        for way in &WAYS {
            assert!(rt;
                keeps_or_answers(rt.alloc(), worked, way)?,
                "at {}",
                worked.instance
            );
        }
    }
    Ok(())
}

// Whether an instance is answered by a choice with a flow of a cost that the checker accepts.
fn costs(alloc: Global, instance: &[u8], way: &Way, cost: i128) -> Result<bool, NoMemory> {
    let Some(choice) = choice_of(way) else {
        return Ok(false);
    };
    let (kind, out) = answered_by(alloc, b"", instance, choice)?;
    let verdict = check(alloc, instance, &out)?;
    Ok(kind == Kind::Flow && verdict == Verdict::Flow(cost))
}

// Two arcs of one cost: either may carry what the other doesn't.
#[test]
fn one_of_several_least_flows(rt: HostRuntime) -> Result<(), Fail> {
    let instance = b"p min 2 2\nn 1 3\nn 2 -3\na 1 2 0 3 4\na 1 2 0 3 4\n";
    for way in &WAYS {
        assert!(rt; costs(rt.alloc(), instance, way, 12)?);
    }
    Ok(())
}

// An instance on two nodes: a thousand arcs of the greatest bound and cost, whose total is 10^36,
// and one that costs nothing.
fn of_greatest_total(alloc: Global) -> Result<Vec<u8>, NoMemory> {
    let mut text = b"p min 2 1001\n".to_vec(alloc)?;
    for _ in 0..1_000 {
        text.extend_from_slice(b"a 1 2 0 1000000000000000000 1000000000000000\n")?;
    }
    text.extend_from_slice(b"a 1 2 0 1 0\n")?;
    Ok(text)
}

// What is written where 1,001 arcs between two nodes carry nothing.
fn nothing_flows(alloc: Global) -> Result<Vec<u8>, NoMemory> {
    let mut text = b"s 0\n".to_vec(alloc)?;
    for _ in 0..1_001 {
        text.extend_from_slice(b"f 1 2 0\n")?;
    }
    text.extend_from_slice(b"y 1 0\ny 2 0\n")?;
    Ok(text)
}

// Whether this flow is written of an instance by a choice.
fn writes(alloc: Global, instance: &[u8], way: &Way, answer: &[u8]) -> Result<bool, NoMemory> {
    let Some(choice) = choice_of(way) else {
        return Ok(false);
    };
    let (kind, out) = answered_by(alloc, b"", instance, choice)?;
    Ok(kind == Kind::Flow && out.as_slice() == answer)
}

// Arcs whose total is 10^36 and that carry nothing.
#[test]
fn the_greatest_total(rt: HostRuntime) -> Result<(), Fail> {
    let instance = of_greatest_total(rt.alloc())?;
    let answer = nothing_flows(rt.alloc())?;
    for way in &WAYS {
        assert!(rt; writes(rt.alloc(), &instance, way, &answer)?);
    }
    assert!(rt; check(rt.alloc(), &instance, &answer)? == Verdict::Flow(0));
    Ok(())
}

// Puts the price of a node on which nothing hangs.
fn put_idle(out: &mut Vec<u8>, node: u32) -> Result<(), NoMemory> {
    out.extend_from_slice(b"y ")?;
    put_number(out, i128::from(node))?;
    out.extend_from_slice(b" 0\n")?;
    Ok(())
}

// The answer to two arcs between the first two of a thousand nodes, over which three units go.
fn among_many(alloc: Global) -> Result<Vec<u8>, NoMemory> {
    let mut text = b"s 7\nf 1 2 2\nf 1 2 1\ny 1 0\ny 2 -5\n".to_vec(alloc)?;
    for node in 3..1_001 {
        put_idle(&mut text, node)?;
    }
    Ok(text)
}

#[test]
fn two_arcs_among_a_thousand_nodes(rt: HostRuntime) -> Result<(), Fail> {
    let instance = b"p min 1000 2\nn 1 3\nn 2 -3\na 1 2 0 2 1\na 1 2 0 2 5\n";
    let answer = among_many(rt.alloc())?;
    for way in &WAYS {
        assert!(rt; writes(rt.alloc(), instance, way, &answer)?);
    }
    assert!(rt; check(rt.alloc(), instance, &answer)? == Verdict::Flow(7));
    Ok(())
}

// A thousand arcs that earn most, each with one to come back by: what they earn is their total,
// 10^36.
fn greatest_earning(alloc: Global) -> Result<Vec<u8>, NoMemory> {
    let mut text = b"p min 2 2000\n".to_vec(alloc)?;
    for _ in 0..1_000 {
        text.extend_from_slice(
            b"a 1 2 0 1000000000000000000 -1000000000000000\na 2 1 0 1000000000000000000 0\n",
        )?;
    }
    Ok(text)
}

// The plain engine would take as many steps as there are arcs, and memory at each.
#[test]
fn the_greatest_earning(rt: HostRuntime) -> Result<(), Fail> {
    let instance = greatest_earning(rt.alloc())?;
    for engine in [EngineChoice::Simplex, EngineChoice::Scaling] {
        let (kind, out) = answered(rt.alloc(), b"", &instance, engine)?;
        let verdict = check(rt.alloc(), &instance, &out)?;
        let earned = Verdict::Flow(-1_000_000_000_000_000_000_000_000_000_000_000_000);
        assert!(rt; kind == Kind::Flow && verdict == earned);
    }
    Ok(())
}
