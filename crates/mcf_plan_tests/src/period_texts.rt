//! Tests of answers to tables over periods as texts.
use mcf_choice::Choice;
use mcf_decimal::Mark;
use mcf_flow_tables::{Options, Texts};
use mcf_plan_text::{PlanText, TextKind, plan_text};
use mcf_planner::Planner as Engine;
use mcf_text::NoMemory;
use mcf_units::Terms;
use std::alloc::Global;
use std::test::Fail;

// A mill gives 6, then 4, and a shop wants 3 and then 7, which arrive one period later.
const PLACES: &[u8] = b"name,supply,period,keep most,keep cost\n\
Mill,6,Jan,,\n\
Mill,4,Feb,,\n\
Shop,-3,Feb,5,1\n\
Shop,-7,March,,\n";

const ROUTES: &[u8] = b"from,to,most,cost,lead\nMill,Shop,6,2,1\n";

const PLAN: &[u8] = b"\"answer\",\"plan\"\n\
\"cost\",\"23\"\n\
\"missing\",\"0\"\n\
\"supply\",\"10\"\n\
\"demand\",\"10\"\n\
\"route\",\"2\",\"Mill\",\"Shop\",\"6\",\"12\",\"0\",\"0\",\"yes\",\"\",\"Jan\",\"Feb\"\n\
\"route\",\"2\",\"Mill\",\"Shop\",\"4\",\"8\",\"2\",\"0\",\"yes\",\"0\",\"Feb\",\"March\"\n\
\"keep\",\"4\",\"Shop\",\"3\",\"3\",\"2\",\"0\",\"yes\",\"0\",\"Feb\",\"March\"\n\
\"place\",\"2\",\"Mill\",\"0\",\"0\",\"0\",\"1\",\"\",\"\",\"\",\"\",\"\",\"\",\"Jan\"\n\
\"place\",\"4\",\"Shop\",\"0\",\"0\",\"0\",\"2\",\"\",\"\",\"\",\"\",\"\",\"\",\"Jan\"\n\
\"place\",\"3\",\"Mill\",\"0\",\"0\",\"1\",\"3\",\"\",\"\",\"\",\"\",\"\",\"\",\"Feb\"\n\
\"place\",\"4\",\"Shop\",\"0\",\"0\",\"2\",\"3\",\"\",\"\",\"\",\"\",\"\",\"\",\"Feb\"\n\
\"place\",\"2\",\"Mill\",\"0\",\"0\",\"0\",\"4\",\"\",\"\",\"\",\"\",\"\",\"\",\"March\"\n\
\"place\",\"5\",\"Shop\",\"0\",\"0\",\"3\",\"3\",\"\",\"\",\"\",\"\",\"\",\"\",\"March\"\n\
\"mark\",\".\"\n";

// The same, but the shop can keep no more than 2.
const SHORT_PLACES: &[u8] = b"name,supply,period,keep most,keep cost\n\
Mill,6,Jan,,\n\
Mill,4,Feb,,\n\
Shop,-3,Feb,2,1\n\
Shop,-7,March,,\n";

const BLOCKED: &[u8] = b"\"answer\",\"no plan\"\n\
\"side\",\"take\"\n\
\"supply\",\"10\"\n\
\"demand\",\"10\"\n\
\"place\",\"3\",\"Mill\",\"yes\",\"yes\",\"4\",\"0\",\"\",\"\",\"Feb\"\n\
\"place\",\"5\",\"Shop\",\"yes\",\"yes\",\"0\",\"7\",\"\",\"\",\"March\"\n\
\"keep\",\"4\",\"Shop\",\"\",\"2\",\"Feb\",\"March\"\n\
\"mark\",\".\"\n";

// Tables with faults, and how these are told.
#[derive(Clone, Copy)]
struct Faulty {
    places: &'static [u8],
    routes: &'static [u8],
    told: &'static [u8],
}

static FAULTY: [Faulty; 6] = [
    Faulty {
        places: b"name,supply,period,first stock\nA,x,Jan,\nA,1,Feb,2\n",
        routes: b"from,to,most,cost,lead\nA,A,1,1,1.5\n",
        told: b"\"answer\",\"faults\"\n\
\"fault\",\"places\",\"2\",\"supply\",\"no number\",\"x\"\n\
\"fault\",\"places\",\"3\",\"first stock\",\"not in the first period\",\"2\"\n\
\"fault\",\"routes\",\"2\",\"lead\",\"no number of periods\",\"1.5\"\n\
\"mark\",\"\"\n",
    },
    Faulty {
        places: b"name,supply,period,first stock\nA,0,Jan,\nA,1,Feb,2\n",
        routes: b"from,to,most,cost,lead\nA,A,1,1,1.5\n",
        told: b"\"answer\",\"faults\"\n\
\"fault\",\"places\",\"3\",\"first stock\",\"not in the first period\",\"2\"\n\
\"fault\",\"routes\",\"2\",\"lead\",\"no number of periods\",\"1.5\"\n\
\"mark\",\"\"\n",
    },
    Faulty {
        places: b"name,supply,period\nA,0,Jan\n",
        routes: b"from,to,most,cost,lead\nA,A,1,1,1\n",
        told: b"\"answer\",\"faults\"\n\
\"fault\",\"routes\",\"2\",\"lead\",\"arrives after the last period\",\"1\"\n\
\"mark\",\"\"\n",
    },
    Faulty {
        places: b"name,supply,period,keep cost\nA,0,Jan,\nA,0,Feb,-1\nA,0,March,\n",
        routes: b"from,to,most,cost,most 2,cost 2\nA,A,1,5,4,2\n",
        told: b"\"answer\",\"faults\"\n\
\"fault\",\"places\",\"3\",\"keep most\",\"no limit, but a cost below 0\",\"\",\"Feb\"\n\
\"fault\",\"routes\",\"2\",\"cost\",\"falling cost\",\"\",\"Jan\"\n\
\"fault\",\"routes\",\"2\",\"cost\",\"falling cost\",\"\",\"Feb\"\n\
\"fault\",\"routes\",\"2\",\"cost\",\"falling cost\",\"\",\"March\"\n\
\"mark\",\"\"\n",
    },
    Faulty {
        places: b"name,supply,period,penalty\nA,-1,Jan,-5\nA,1,Feb,\n",
        routes: b"from,to,most,cost\nA,A,1,1\n",
        told: b"\"answer\",\"faults\"\n\
\"fault\",\"places\",\"2\",\"penalty\",\"below 0\",\"\",\"Jan\"\n\
\"mark\",\"\"\n",
    },
    Faulty {
        places: b"name,supply,period,keep most,keep cost\nA,0,Jan,5,2000000000000000\nA,0,Feb,,\n",
        routes: b"from,to,most,cost\nA,A,1,1\n",
        told: b"\"answer\",\"faults\"\n\
\"fault\",\"places\",\"2\",\"keep cost\",\"beyond the limits\",\"\",\"Jan\"\n\
\"mark\",\".\"\n",
    },
];

// All that is given is sent, and all that is wanted arrives.
const STRICT: Terms = Terms {
    unused: false,
    short: false,
    penalty: None,
};

// Supplies may stay, and demands may be missing.
const LOOSE: Terms = Terms {
    unused: true,
    short: true,
    penalty: None,
};

// Places that have stocks, and the answer if supplies may stay and demands may be missing; they
// have no route.
#[derive(Clone, Copy)]
struct Stocked {
    places: &'static [u8],
    told: &'static [u8],
}

static STOCKED: [Stocked; 7] = [
    // the first stock is kept for the demand that costs more
    Stocked {
        places: b"name,supply,period,first stock,keep cost,penalty\nW,-3,Jan,3,0,1\nW,-3,Feb,,,100\n",
        told: b"\"answer\",\"plan\"\n\
\"cost\",\"3\"\n\
\"missing\",\"3\"\n\
\"supply\",\"3\"\n\
\"demand\",\"6\"\n\
\"keep\",\"2\",\"W\",\"3\",\"0\",\"\",\"0\",\"yes\",\"0\",\"first stock\",\"Jan\"\n\
\"keep\",\"2\",\"W\",\"3\",\"0\",\"\",\"0\",\"yes\",\"0\",\"Jan\",\"Feb\"\n",
    },
    // the first stock passes the bounds of its place
    Stocked {
        places: b"name,supply,most,period,first stock\nA,-3,2,Jan,3\n",
        told: b"\"answer\",\"plan\"\n\
\"cost\",\"0\"\n\
\"missing\",\"1\"\n\
\"supply\",\"3\"\n\
\"demand\",\"3\"\n\
\"keep\",\"2\",\"A\",\"2\",",
    },
    // a last stock may be missing at the penalty of its row, which may have a supply above 0
    Stocked {
        places: b"name,supply,period,last stock,penalty\nA,3,Jan,5,7\n",
        told: b"\"answer\",\"plan\"\n\
\"cost\",\"14\"\n\
\"missing\",\"2\"\n\
\"supply\",\"3\"\n\
\"demand\",\"5\"\n\
\"keep\",\"2\",\"A\",\"3\",\"0\",\"\",\"0\",\"yes\",\"0\",\"Jan\",\"last stock\"\n\
\"place\",\"2\",\"A\",\"0\",\"0\",\"7\",\"1\",\"\",\"\",\"\",\"\",\"\",\"\",\"Jan\"\n\
\"place\",\"2\",\"A\",\"0\",\"2\",\"7\",\"1\",\"\",\"\",\"\",\"\",\"\",\"\",\"last stock\"\n",
    },
    // a last stock is a demand like others
    Stocked {
        places: b"name,supply,period,last stock,penalty\nA,0,Jan,5,\nB,-1,Jan,,7\n",
        told: b"\"answer\",\"faults\"\n\
\"fault\",\"places\",\"2\",\"penalty\",\"no penalty, but other places have one\",\"\",\"last stock\"\n",
    },
    // costs below 0 ask for limits, and what is kept of a stock has one
    Stocked {
        places: b"name,supply,period,first stock,keep most,keep cost\nW,0,Jan,5,9,-1\nW,-2,Feb,,,\n",
        told: b"\"answer\",\"plan\"\n\
\"cost\",\"-2\"\n\
\"missing\",\"0\"\n\
\"supply\",\"5\"\n\
\"demand\",\"2\"\n\
\"keep\",\"2\",\"W\",\"2\",",
    },
    // stocks beyond the limits
    Stocked {
        places: b"name,supply,period,first stock\nA,0,Jan,900000000000000000\n",
        told: b"\"answer\",\"faults\"\n\
\"fault\",\"places\",\"2\",\"first stock\",\"beyond the limits\",\"\",\"first stock\"\n",
    },
    Stocked {
        places: b"name,supply,period,last stock\nA,0,Jan,900000000000000000\n",
        told: b"\"answer\",\"faults\"\n\
\"fault\",\"places\",\"2\",\"last stock\",\"beyond the limits\",\"\",\"Jan\"\n",
    },
];

// The text of the answer to two texts on these terms.
fn text_for(
    alloc: Global,
    places: &[u8],
    routes: &[u8],
    terms: Terms,
) -> Result<PlanText, NoMemory> {
    let mut engine = Engine {
        choice: Choice::default(),
    };
    let options = Options {
        mark: Some(Mark::Point),
        terms,
    };
    let texts = Texts {
        places,
        routes,
        fill_down: &[],
    };
    plan_text(alloc, &mut engine, texts, options)
}

#[test]
fn a_plan_over_periods_is_told(rt: HostRuntime) -> Result<(), Fail> {
    let told = text_for(rt.alloc(), PLACES, ROUTES, STRICT)?;
    assert!(rt; told.kind == TextKind::Plan);
    assert!(rt; told.text.starts_with(PLAN));
    Ok(())
}

#[test]
fn a_bottleneck_over_periods_is_told(rt: HostRuntime) -> Result<(), Fail> {
    let told = text_for(rt.alloc(), SHORT_PLACES, ROUTES, STRICT)?;
    assert!(rt; told.kind == TextKind::NoPlan);
    assert!(rt; told.text.starts_with(BLOCKED));
    Ok(())
}

#[test]
fn faults_over_periods_are_told(rt: HostRuntime) -> Result<(), Fail> {
    for row in FAULTY.iter() {
        let told = text_for(rt.alloc(), row.places, row.routes, STRICT)?;
        assert!(rt; told.kind == TextKind::Faults);
        assert!(rt; told.text.starts_with(row.told));
    }
    Ok(())
}

#[test]
fn stocks_have_periods_of_their_own(rt: HostRuntime) -> Result<(), Fail> {
    for row in STOCKED.iter() {
        let told = text_for(rt.alloc(), row.places, b"from,to,most,cost\n", LOOSE)?;
        assert!(rt; told.text.starts_with(row.told));
    }
    Ok(())
}
