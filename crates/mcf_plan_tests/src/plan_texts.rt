//! Tests of answers to tables as texts.
use mcf_choice::Choice;
use mcf_decimal::Mark;
use mcf_flow_tables::{Options, Texts};
use mcf_plan_text::{PlanText, TextKind, plan_text};
use mcf_planner::Planner as Engine;
use mcf_text::NoMemory;
use mcf_units::Terms;
use std::alloc::Global;
use std::test::Fail;

const PLACES: &[u8] = b"name,supply\nMill,12.5\n\"G \"\"raz\",\nWien,-12.5\n";

const ROUTES: &[u8] = b"from,to,most,cost\nMill,\"G \"\"raz\",20,1.5\n\"G \"\"raz\",Wien,,0.25\n";

const PLAN: &[u8] = b"\"answer\",\"plan\"\n\"cost\",\"21.875\"\n\"missing\",\"0\"\n\
\"supply\",\"12.5\"\n\"demand\",\"12.5\"\n\
\"route\",\"2\",\"Mill\",\"G \"\"raz\",\"12.5\",\"18.75\",\"7.5\",\"0\",\"yes\",\"0\"\n\
\"route\",\"3\",\"G \"\"raz\",\"Wien\",\"12.5\",\"3.125\",\"\",\"0\",\"yes\",\"0\"\n\
\"place\",\"2\",\"Mill\",\"0\",\"0\",\"0\",\"1\",\"\",\"\",\"\",\"\",\"\",\"\"\n\
\"place\",\"3\",\"G \"\"raz\",\"0\",\"0\",\"1.5\",\"1\",\"\",\"\",\"\",\"\",\"\",\"\"\n\
\"place\",\"4\",\"Wien\",\"0\",\"0\",\"1.75\",\"1\",\"\",\"\",\"\",\"\",\"\",\"\"\n";

// The mark, and the rows of these places.
const PLACES_AGAIN: &[u8] = b"\"mark\",\".\"\n\"heads\",\"places\",\"1\",\"name\",\"supply\"\n\
\"row\",\"places\",\"2\",\"Mill\",\"12.5\"\n\"row\",\"places\",\"3\",\"G \"\"raz\",\"\"\n\
\"row\",\"places\",\"4\",\"Wien\",\"-12.5\"\n";

// The rows of these routes.
const ROUTES_AGAIN: &[u8] = b"\"heads\",\"routes\",\"1\",\"from\",\"to\",\"most\",\"cost\"\n\
\"row\",\"routes\",\"2\",\"Mill\",\"G \"\"raz\",\"20\",\"1.5\"\n\
\"row\",\"routes\",\"3\",\"G \"\"raz\",\"Wien\",\"\",\"0.25\"\n";

// The part of a text after so many bytes; nothing if it is shorter.
fn after(text: &[u8], count: usize) -> &[u8] {
    if count < text.len() {
        &text[count..]
    } else {
        &[]
    }
}

// A text without its last bytes; nothing if it is shorter.
fn before(text: &[u8], count: usize) -> &[u8] {
    if count < text.len() {
        &text[..text.len() - count]
    } else {
        &[]
    }
}

// Whether a text begins with these rows, then has those, and ends with the last.
fn is_of(text: &[u8], rows: &[u8], then: &[u8], last: &[u8]) -> bool {
    let rest = after(text, rows.len());
    text.starts_with(rows) && rest.starts_with(then) && after(rest, then.len()) == last
}

// Whether a text has these rows, and then both tables without a mark.
fn has_faults(text: &[u8], rows: &[u8]) -> bool {
    let rest = after(text, rows.len());
    text.starts_with(rows) && rest.starts_with(b"\"mark\",\"\"\n\"heads\",\"places\",\"1\",")
}

// The text of the answer to two texts.
fn text_for(alloc: Global, places: &[u8], routes: &[u8]) -> Result<PlanText, NoMemory> {
    text_under(alloc, Some(Mark::Point), places, routes)
}

// The text of the answer to two texts under this mark.
fn text_under(
    alloc: Global,
    mark: Option<Mark>,
    places: &[u8],
    routes: &[u8],
) -> Result<PlanText, NoMemory> {
    text_with(alloc, mark, false, places, routes)
}

// The text of the answer to two texts under this mark, where demands may be missing if the test
// says so.
fn text_with(
    alloc: Global,
    mark: Option<Mark>,
    short: bool,
    places: &[u8],
    routes: &[u8],
) -> Result<PlanText, NoMemory> {
    let mut engine = Engine {
        choice: Choice::default(),
    };
    let options = Options {
        mark,
        terms: Terms {
            unused: false,
            short,
            penalty: None,
        },
    };
    let texts = Texts {
        places,
        routes,
        fill_down: &[],
    };
    plan_text(alloc, &mut engine, texts, options)
}

#[test]
fn a_plan_is_told(rt: HostRuntime) -> Result<(), Fail> {
    let told = text_for(rt.alloc(), PLACES, ROUTES)?;
    assert!(rt; told.kind == TextKind::Plan);
    assert!(rt; is_of(&told.text, PLAN, PLACES_AGAIN, ROUTES_AGAIN));
    Ok(())
}

#[test]
fn the_tables_are_told_whole(rt: HostRuntime) -> Result<(), Fail> {
    let places =
        b"May;;\n\nname;supply;Region\n Mill ;2,5;North\nTown;-2,5;\"South; \"\"old\"\"\"\n";
    let routes = b"from;to;most;cost\nMill;Town;3;1\n";
    let told = text_under(rt.alloc(), None, places, routes)?;
    let places = b"\"mark\",\",\"\n\"heads\",\"places\",\"3\",\"name\",\"supply\",\"Region\"\n\
\"row\",\"places\",\"4\",\"Mill\",\"2,5\",\"North\"\n\
\"row\",\"places\",\"5\",\"Town\",\"-2,5\",\"South; \"\"old\"\"\"\n";
    let routes = b"\"heads\",\"routes\",\"1\",\"from\",\"to\",\"most\",\"cost\"\n\
\"row\",\"routes\",\"2\",\"Mill\",\"Town\",\"3\",\"1\"\n";
    assert!(rt; told.text.ends_with(routes) && before(&told.text, routes.len()).ends_with(places));
    Ok(())
}

// The tables and the results of examples/plans/models: two places with bounds, steps, and routes
// both ways, of which two have ways back of their own and one is used backwards.
const WAY_PLACES: &[u8] = b"name,supply,most,cost\n\
Rostock,70,,\n\
Triest,60,,\n\
Hof,0,65,1.5\n\
Leipzig,0,,0.5\n\
Prag,-45,,\n\
Wien,-50,,\n\
Berlin,-35,,\n";

const WAY_ROUTES: &[u8] = b"from,to,most,cost,most 2,cost 2,both\n\
Rostock,Berlin,,4,,,\n\
Rostock,Leipzig,20,5,25,8,\n\
Triest,Wien,30,6,30,9.5,\n\
Triest,Hof,40,11,,,\n\
Leipzig,Hof,30,3,,,yes\n\
Leipzig,Prag,30,4,20,6,\n\
Hof,Prag,40,5,,,\n\
Hof,Wien,25,7,,,\n\
Berlin,Leipzig,15,3,,,yes\n\
Prag,Wien,20,5,,,yes\n";

const WAY_PLAN: &[u8] = b"\"answer\",\"plan\"\n\
\"cost\",\"1027.5\"\n\
\"missing\",\"0\"\n\
\"supply\",\"130\"\n\
\"demand\",\"130\"\n\
\"route\",\"2\",\"Rostock\",\"Berlin\",\"50\",\"200\",\"\",\"0\",\"yes\",\"0\"\n\
\"route\",\"3\",\"Rostock\",\"Leipzig\",\"20\",\"100\",\"25\",\"0\",\"yes\",\"0\"\n\
\"route\",\"4\",\"Triest\",\"Wien\",\"60\",\"465\",\"0\",\"0\",\"yes\",\"\"\n\
\"route\",\"5\",\"Triest\",\"Hof\",\"0\",\"0\",\"40\",\"0\",\"yes\",\"3\"\n\
\"route\",\"6\",\"Leipzig\",\"Hof\",\"0\",\"0\",\"30\",\"0\",\"yes\",\"3.5\"\n\
\"route\",\"7\",\"Leipzig\",\"Prag\",\"35\",\"150\",\"15\",\"0\",\"yes\",\"0\"\n\
\"route\",\"8\",\"Hof\",\"Prag\",\"0\",\"0\",\"40\",\"0\",\"yes\",\"0\"\n\
\"route\",\"9\",\"Hof\",\"Wien\",\"0\",\"0\",\"25\",\"0\",\"yes\",\"7\"\n\
\"route\",\"10\",\"Berlin\",\"Leipzig\",\"15\",\"45\",\"0\",\"1\",\"no\",\"\"\n\
\"route\",\"11\",\"Prag\",\"Wien\",\"-10\",\"50\",\"10\",\"0\",\"yes\",\"0\"\n\
\"back\",\"6\",\"Hof\",\"Leipzig\",\"0\",\"0\",\"30\",\"0\",\"yes\",\"4.5\"\n\
\"back\",\"10\",\"Leipzig\",\"Berlin\",\"0\",\"0\",\"15\",\"0\",\"yes\",\"7.5\"\n\
\"place\",\"2\",\"Rostock\",\"0\",\"0\",\"0\",\"1\",\"\",\"\",\"\",\"\",\"\",\"\"\n\
\"place\",\"3\",\"Triest\",\"0\",\"0\",\"0\",\"2\",\"\",\"\",\"\",\"\",\"\",\"\"\n\
\"place\",\"4\",\"Hof\",\"0\",\"0\",\"9.5\",\"9\",\"0\",\"0\",\"65\",\"0\",\"yes\",\"0\"\n\
\"place\",\"5\",\"Leipzig\",\"0\",\"0\",\"8.5\",\"4\",\"35\",\"17.5\",\"\",\"0\",\"yes\",\"0\"\n\
\"place\",\"6\",\"Prag\",\"0\",\"0\",\"14.5\",\"4\",\"\",\"\",\"\",\"\",\"\",\"\"\n\
\"place\",\"7\",\"Wien\",\"0\",\"0\",\"9.5\",\"4\",\"\",\"\",\"\",\"\",\"\",\"\"\n\
\"place\",\"8\",\"Berlin\",\"0\",\"0\",\"4\",\"1\",\"\",\"\",\"\",\"\",\"\",\"\"\n";

// Those of examples/plans/degenerate: a plan in which no unit may move, so that what one more unit
// saves is less than the prices say.
const TIGHT_PLACES: &[u8] = b"name,supply\n\
Depot A,30\n\
Depot B,20\n\
Markt 1,-20\n\
Markt 2,-20\n\
Markt 3,-10\n";

const TIGHT_ROUTES: &[u8] = b"from,to,least,most,cost\n\
Depot A,Markt 1,0,20,3\n\
Depot A,Markt 2,0,10,5\n\
Depot A,Markt 3,0,30,9\n\
Depot B,Markt 1,0,20,6\n\
Depot B,Markt 2,0,10,4\n\
Depot B,Markt 3,0,10,2\n";

const TIGHT_PLAN: &[u8] = b"\"answer\",\"plan\"\n\
\"cost\",\"170\"\n\
\"missing\",\"0\"\n\
\"supply\",\"50\"\n\
\"demand\",\"50\"\n\
\"route\",\"2\",\"Depot A\",\"Markt 1\",\"20\",\"60\",\"0\",\"0\",\"yes\",\"\"\n\
\"route\",\"3\",\"Depot A\",\"Markt 2\",\"10\",\"50\",\"0\",\"0\",\"yes\",\"\"\n\
\"route\",\"4\",\"Depot A\",\"Markt 3\",\"0\",\"0\",\"30\",\"0\",\"yes\",\"7\"\n\
\"route\",\"5\",\"Depot B\",\"Markt 1\",\"0\",\"0\",\"20\",\"0\",\"yes\",\"3\"\n\
\"route\",\"6\",\"Depot B\",\"Markt 2\",\"10\",\"40\",\"0\",\"1\",\"no\",\"\"\n\
\"route\",\"7\",\"Depot B\",\"Markt 3\",\"10\",\"20\",\"0\",\"0\",\"yes\",\"\"\n\
\"place\",\"2\",\"Depot A\",\"0\",\"0\",\"0\",\"1\",\"\",\"\",\"\",\"\",\"\",\"\"\n\
\"place\",\"3\",\"Depot B\",\"0\",\"0\",\"0\",\"2\",\"\",\"\",\"\",\"\",\"\",\"\"\n\
\"place\",\"4\",\"Markt 1\",\"0\",\"0\",\"3\",\"3\",\"\",\"\",\"\",\"\",\"\",\"\"\n\
\"place\",\"5\",\"Markt 2\",\"0\",\"0\",\"5\",\"4\",\"\",\"\",\"\",\"\",\"\",\"\"\n\
\"place\",\"6\",\"Markt 3\",\"0\",\"0\",\"2\",\"5\",\"\",\"\",\"\",\"\",\"\",\"\"\n";

#[test]
fn figures_are_told(rt: HostRuntime) -> Result<(), Fail> {
    let told = text_for(rt.alloc(), WAY_PLACES, WAY_ROUTES)?;
    assert!(rt; told.text.starts_with(WAY_PLAN));
    let told = text_for(rt.alloc(), TIGHT_PLACES, TIGHT_ROUTES)?;
    assert!(rt; told.text.starts_with(TIGHT_PLAN));
    Ok(())
}

// A yard to which a route from itself brings all amounts, where each unit that passes earns 1.
const YARD: &[u8] = b"name,supply,most,cost\nYard,0,,-1\n";

const ROUND: &[u8] = b"from,to,most,cost\nYard,Yard,5,0.25\n";

const ROUND_PLAN: &[u8] = b"\"answer\",\"plan\"\n\"cost\",\"-3.75\"\n\"missing\",\"0\"\n\
\"supply\",\"0\"\n\"demand\",\"0\"\n\
\"route\",\"2\",\"Yard\",\"Yard\",\"5\",\"1.25\",\"0\",\"0.75\",\"yes\",\"\"\n\
\"place\",\"2\",\"Yard\",\"0\",\"0\",\"0\",\"1\",\"5\",\"-5\",\"\",\"0\",\"yes\",\"0\"\n\"mark\"";

#[test]
fn no_limit_counts_that_bounds_do_not_have(rt: HostRuntime) -> Result<(), Fail> {
    let told = text_for(rt.alloc(), YARD, ROUND)?;
    assert!(rt; told.kind == TextKind::Plan);
    assert!(rt; told.text.starts_with(ROUND_PLAN));
    Ok(())
}

#[test]
fn a_bottleneck_is_told(rt: HostRuntime) -> Result<(), Fail> {
    let routes = b"from,to,most,cost\nMill,\"G \"\"raz\",12,1.5\n\"G \"\"raz\",Wien,,0.25\n";
    let told = text_for(rt.alloc(), PLACES, routes)?;
    let want =
        b"\"answer\",\"no plan\"\n\"side\",\"take\"\n\"supply\",\"12.5\"\n\"demand\",\"12.5\"\n\
\"place\",\"3\",\"G \"\"raz\",\"yes\",\"yes\",\"0\",\"0\",\"\",\"\"\n\
\"place\",\"4\",\"Wien\",\"yes\",\"yes\",\"0\",\"12.5\",\"\",\"\"\n\
\"route\",\"2\",\"Mill\",\"G \"\"raz\",\"\",\"12\"\n";
    let again = b"\"heads\",\"routes\",\"1\",\"from\",\"to\",\"most\",\"cost\"\n\
\"row\",\"routes\",\"2\",\"Mill\",\"G \"\"raz\",\"12\",\"1.5\"\n\
\"row\",\"routes\",\"3\",\"G \"\"raz\",\"Wien\",\"\",\"0.25\"\n";
    assert!(rt; told.kind == TextKind::NoPlan);
    assert!(rt; is_of(&told.text, want, PLACES_AGAIN, again));
    Ok(())
}

// Bounds of a place, and a town that takes three units and has to send one on to the port: at most
// two units pass through the depot, and half a unit comes on a route both ways.
const BOUND_PLACES: &[u8] =
    b"name,supply,least,most,cost\nMill,3,,,\nDepot,,0,2,0\nTown,-3,,,\nPort,,,,\n";

const BOUND_ROUTES: &[u8] = b"from,to,most,cost,both,least\nMill,Depot,,1,,\nDepot,Town,,1,,\n\
Town,Mill,0.5,1,yes,\nTown,Port,2,1,,1\nPort,Mill,2,1,,1\n";

const BOUND_PLACES_AGAIN: &[u8] = b"\"mark\",\".\"\n\
\"heads\",\"places\",\"1\",\"name\",\"supply\",\"least\",\"most\",\"cost\"\n\
\"row\",\"places\",\"2\",\"Mill\",\"3\",\"\",\"\",\"\"\n\
\"row\",\"places\",\"3\",\"Depot\",\"\",\"0\",\"2\",\"0\"\n\
\"row\",\"places\",\"4\",\"Town\",\"-3\",\"\",\"\",\"\"\n\
\"row\",\"places\",\"5\",\"Port\",\"\",\"\",\"\",\"\"\n";

const BOUND_ROUTES_AGAIN: &[u8] =
    b"\"heads\",\"routes\",\"1\",\"from\",\"to\",\"most\",\"cost\",\"both\",\"least\"\n\
\"row\",\"routes\",\"2\",\"Mill\",\"Depot\",\"\",\"1\",\"\",\"\"\n\
\"row\",\"routes\",\"3\",\"Depot\",\"Town\",\"\",\"1\",\"\",\"\"\n\
\"row\",\"routes\",\"4\",\"Town\",\"Mill\",\"0.5\",\"1\",\"yes\",\"\"\n\
\"row\",\"routes\",\"5\",\"Town\",\"Port\",\"2\",\"1\",\"\",\"1\"\n\
\"row\",\"routes\",\"6\",\"Port\",\"Mill\",\"2\",\"1\",\"\",\"1\"\n";

#[test]
fn what_counts_in_a_bottleneck_is_told(rt: HostRuntime) -> Result<(), Fail> {
    let told = text_for(rt.alloc(), BOUND_PLACES, BOUND_ROUTES)?;
    let want = b"\"answer\",\"no plan\"\n\"side\",\"take\"\n\"supply\",\"3\"\n\"demand\",\"3\"\n\
\"place\",\"3\",\"Depot\",\"no\",\"yes\",\"\",\"0\",\"\",\"2\"\n\
\"place\",\"4\",\"Town\",\"yes\",\"yes\",\"0\",\"3\",\"\",\"\"\n\
\"route\",\"4\",\"Town\",\"Mill\",\"0\",\"\"\n\
\"back\",\"4\",\"Mill\",\"Town\",\"\",\"0.5\"\n\
\"route\",\"5\",\"Town\",\"Port\",\"1\",\"\"\n";
    assert!(rt; told.kind == TextKind::NoPlan);
    assert!(rt; is_of(&told.text, want, BOUND_PLACES_AGAIN, BOUND_ROUTES_AGAIN));
    Ok(())
}

#[test]
fn faults_are_told(rt: HostRuntime) -> Result<(), Fail> {
    let routes = b"from,to,most,cost,\nMill,Linz,x,1\n,Wien,,1,,7\n";
    let told = text_for(rt.alloc(), PLACES, routes)?;
    let want = b"\"answer\",\"faults\"\n\
\"fault\",\"routes\",\"3\",\"6\",\"beyond the last head\",\"7\"\n\
\"fault\",\"routes\",\"2\",\"to\",\"no such place\",\"Linz\"\n\
\"fault\",\"routes\",\"2\",\"most\",\"no number\",\"x\"\n\
\"fault\",\"routes\",\"3\",\"from\",\"empty name\",\"\"\n";
    let again = b"\"heads\",\"routes\",\"1\",\"from\",\"to\",\"most\",\"cost\",\"\"\n\
\"row\",\"routes\",\"2\",\"Mill\",\"Linz\",\"x\",\"1\"\n\
\"row\",\"routes\",\"3\",\"\",\"Wien\",\"\",\"1\",\"\",\"7\"\n";
    assert!(rt; told.kind == TextKind::Faults);
    assert!(rt; has_faults(&told.text, want) && told.text.ends_with(again));
    Ok(())
}

#[test]
fn heads_that_are_meant_are_told(rt: HostRuntime) -> Result<(), Fail> {
    let routes = b"from,to,most,Costs,most 3\n";
    let told = text_for(rt.alloc(), PLACES, routes)?;
    let want = b"\"answer\",\"faults\"\n\
\"fault\",\"routes\",\"1\",\"cost\",\"no such column\",\"\"\n\
\"fault\",\"routes\",\"1\",\"4\",\"nearly cost\",\"Costs\"\n\
\"fault\",\"routes\",\"1\",\"5\",\"not read without most 2\",\"most 3\"\n";
    assert!(rt; told.kind == TextKind::Faults && has_faults(&told.text, want));
    Ok(())
}

#[test]
fn faults_of_penalties_are_told(rt: HostRuntime) -> Result<(), Fail> {
    let places = b"name,supply,penalty\nMill,3,1\nGraz,-1,-2\nWien,-2,\n";
    let routes = b"from,to,most,cost\nMill,Graz,,1\n";
    let told = text_with(rt.alloc(), None, true, places, routes)?;
    let want = b"\"answer\",\"faults\"\n\
\"fault\",\"places\",\"3\",\"penalty\",\"below 0\",\"\"\n\
\"fault\",\"places\",\"2\",\"penalty\",\"a penalty, but a supply above 0\",\"\"\n\
\"fault\",\"places\",\"4\",\"penalty\",\"no penalty, but other places have one\",\"\"\n";
    assert!(rt; told.kind == TextKind::Faults && has_faults(&told.text, want));
    Ok(())
}

#[test]
fn a_penalty_beyond_the_limits_is_told(rt: HostRuntime) -> Result<(), Fail> {
    let places = b"name,supply,penalty\nMill,1,\nWien,-2,2000000000000000\n";
    let routes = b"from,to,most,cost\nMill,Wien,,1\n";
    let told = text_with(rt.alloc(), None, true, places, routes)?;
    let want = b"\"answer\",\"faults\"\n\
\"fault\",\"places\",\"3\",\"penalty\",\"beyond the limits\",\"\"\n";
    assert!(rt; told.kind == TextKind::Faults && has_faults(&told.text, want));
    Ok(())
}

// The end of the answer to a matrix of one route, and to places whose total stands below them.
const DONE: &[u8] = b"\"list\",\"routes\",\"1\"\n\"left out\",\"places\",\"4\"\n\"mark\",\".\"\n\
\"heads\",\"places\",\"1\",\"name\",\"supply\"\n\"row\",\"places\",\"2\",\"A\",\"1\"\n\
\"row\",\"places\",\"3\",\"B\",\"-1\"\n\"heads\",\"routes\",\"1\",\"from\",\"to\",\"most\",\"cost\"\n\
\"row\",\"routes\",\"2\",\"A\",\"B\",\"\",\"2\"\n";

#[test]
fn what_was_done_to_tables_is_told(rt: HostRuntime) -> Result<(), Fail> {
    let places = b"name,supply\nA,1\nB,-1\nTotal,0\n";
    let told = text_for(rt.alloc(), places, b"to,A,B\nA,-,2\nB,x,0\n")?;
    assert!(rt; told.kind == TextKind::Plan);
    assert!(rt; told.text.ends_with(DONE));
    Ok(())
}
