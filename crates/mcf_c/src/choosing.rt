//! The choice that the numbers of a call mean.
ghost use Rattle.std.specs.Prelude.{◌≡◌};
ghost use Rattle.mcf_c.specs.Choices.{block_of, choice_of, engine_of, form_of, is_mender, pricing_of};

use mcf_solver::{BlockSize, Choice, EngineChoice, Form, PricingChoice};

/// How to solve and answer an instance, in numbers. Each is 0 for the default. A `check` other than
/// 0 has the checker judge a flow in arrays before the call returns it.
#[repr(C)]
#[derive(Clone, Copy)]
pub struct McfChoice {
    pub engine: u32,
    pub pricing: u32,
    pub block: u32,
    pub form: u32,
    pub check: u32,
}

/// What a call for arrays is asked: how to solve the instance, whether the checker judges the flow
/// before the call returns it, and whether its buffers hold the answer to a similar instance.
#[derive(Clone, Copy)]
pub(crate) struct Asked {
    pub(crate) choice: Choice,
    pub(crate) is_judged: bool,
    pub(crate) is_again: bool,
}

// The engine with a number.
fn engine_of(number: u32) -> Option<EngineChoice>
    ensures { result ≡ engine_of number }
{
    match number {
        0 => Some(EngineChoice::Auto),
        1 => Some(EngineChoice::Cancel),
        2 => Some(EngineChoice::Simplex),
        3 => Some(EngineChoice::Scaling),
        4 => Some(EngineChoice::Sap),
        5 => Some(EngineChoice::Fast),
        _ => None,
    }
}

// The pricing rule with a number.
fn pricing_of(number: u32) -> Option<PricingChoice>
    ensures { result ≡ pricing_of number }
{
    match number {
        0 => Some(PricingChoice::Block),
        1 => Some(PricingChoice::First),
        2 => Some(PricingChoice::Best),
        3 => Some(PricingChoice::Wide),
        _ => None,
    }
}

// The size of blocks with a number: the default for 0.
fn block_of(number: u32) -> Option<BlockSize>
    ensures { result ≡ block_of number }
{
    if number == 0 {
        return Some(BlockSize::standard());
    }
    BlockSize::new(number)
}

// The form with a number.
fn form_of(number: u32) -> Option<Form>
    ensures { result ≡ form_of number }
{
    match number {
        0 | 1 => Some(Form::One),
        2 => Some(Form::Two),
        _ => None,
    }
}

/// The choice that numbers mean, if they mean one.
pub(crate) fn choice_of(numbers: &McfChoice) -> Option<Choice>
    ensures { result ≡ choice_of numbers.now }
{
    let engine = engine_of(numbers.engine)?;
    let pricing = pricing_of(numbers.pricing)?;
    let block = block_of(numbers.block)?;
    let form = form_of(numbers.form)?;
    Some(Choice {
        engine,
        pricing,
        block,
        form,
    })
}

/// Whether an engine is one that mends the answer to a similar problem where there is one.
pub(crate) fn is_mender(engine: EngineChoice) -> bool
    ensures { result ≡ is_mender engine }
{
    match engine {
        EngineChoice::Auto | EngineChoice::Fast => true,
        EngineChoice::Cancel | EngineChoice::Simplex | EngineChoice::Scaling | EngineChoice::Sap =>
            false,
    }
}
