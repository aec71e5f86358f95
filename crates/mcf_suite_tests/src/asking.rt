//! Command lines, and what they ask.
use clap::Error;
use mcf_suite::{EngineChoice, Form, PricingChoice, command};
use std::alloc::Global;
use std::test::Fail;

// Words, and what they ask for.
struct Asking {
    words: &'static [&'static str],
    engine: EngineChoice,
    pricing: PricingChoice,
    block: u32,
    form: Form,
    file: Option<&'static str>,
}

static ASKED: [Asking; 13] = [
    Asking {
        words: &["mcf", "solve"],
        engine: EngineChoice::Auto,
        pricing: PricingChoice::Block,
        block: 256,
        form: Form::One,
        file: None,
    },
    Asking {
        words: &["mcf", "solve", "--engine", "cancel", "a.min"],
        engine: EngineChoice::Cancel,
        pricing: PricingChoice::Block,
        block: 256,
        form: Form::One,
        file: Some("a.min"),
    },
    Asking {
        words: &["mcf", "solve", "b.min", "--engine=auto"],
        engine: EngineChoice::Auto,
        pricing: PricingChoice::Block,
        block: 256,
        form: Form::One,
        file: Some("b.min"),
    },
    Asking {
        words: &["mcf", "solve", "--engine=scaling"],
        engine: EngineChoice::Scaling,
        pricing: PricingChoice::Block,
        block: 256,
        form: Form::One,
        file: None,
    },
    Asking {
        words: &["mcf", "solve", "--engine=fast", "f.min"],
        engine: EngineChoice::Fast,
        pricing: PricingChoice::Block,
        block: 256,
        form: Form::One,
        file: Some("f.min"),
    },
    Asking {
        words: &["mcf", "solve", "--engine", "sap", "--pricing", "best"],
        engine: EngineChoice::Sap,
        pricing: PricingChoice::Best,
        block: 256,
        form: Form::One,
        file: None,
    },
    Asking {
        words: &[
            "mcf",
            "solve",
            "--engine",
            "simplex",
            "--pricing",
            "block",
            "--block",
            "1",
            "c.min",
        ],
        engine: EngineChoice::Simplex,
        pricing: PricingChoice::Block,
        block: 1,
        form: Form::One,
        file: Some("c.min"),
    },
    Asking {
        words: &["mcf", "solve", "--block=1000000", "--pricing=first"],
        engine: EngineChoice::Auto,
        pricing: PricingChoice::First,
        block: 1_000_000,
        form: Form::One,
        file: None,
    },
    Asking {
        words: &["mcf", "solve", "--block", "+0016", "d.min"],
        engine: EngineChoice::Auto,
        pricing: PricingChoice::Block,
        block: 16,
        form: Form::One,
        file: Some("d.min"),
    },
    Asking {
        words: &["mcf", "solve", "--form", "1"],
        engine: EngineChoice::Auto,
        pricing: PricingChoice::Block,
        block: 256,
        form: Form::One,
        file: None,
    },
    Asking {
        words: &["mcf", "solve", "--form", "full"],
        engine: EngineChoice::Auto,
        pricing: PricingChoice::Block,
        block: 256,
        form: Form::One,
        file: None,
    },
    Asking {
        words: &["mcf", "solve", "--form=sparse"],
        engine: EngineChoice::Auto,
        pricing: PricingChoice::Block,
        block: 256,
        form: Form::Two,
        file: None,
    },
    Asking {
        words: &["mcf", "solve", "e.min", "--form=2", "--engine=scaling"],
        engine: EngineChoice::Scaling,
        pricing: PricingChoice::Block,
        block: 256,
        form: Form::Two,
        file: Some("e.min"),
    },
];

// Whether the words ask for this.
fn asks(alloc: Global, asking: &Asking) -> Result<bool, Error> {
    let asked = command(alloc, asking.words)?;
    let choice = asked.choice;
    Ok(
        choice.engine == asking.engine
            && choice.pricing == asking.pricing
            && choice.block.get() == asking.block
            && choice.form == asking.form
            && asked.file == asking.file,
    )
}

#[test]
fn what_is_asked(rt: HostRuntime) -> Result<(), Fail> {
    for asking in &ASKED {
        assert!(rt; asks(rt.alloc(), asking)?);
    }
    Ok(())
}
