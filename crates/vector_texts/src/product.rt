ghost use Rattle.std.specs.Prelude.{◌≡◌, ◌<◌, ◌^◌, length, map, Ok, IfOk, IfErr};
ghost use Rattle.matrix_free.specs.Values.{AreValues};
ghost use Rattle.run_words.specs.Choice.{seen, seen_output};
ghost use Rattle.run_words.specs.Ranges.{IsWithinRanges};
ghost use Rattle.run_outputs.specs.Targets.{seen_target};
ghost use Rattle.diagnostics.specs.Stages.{EndsIn};
ghost use Rattle.vector_texts.specs.Product.{ProductOf, ProductTexts};

use crate::endings::product_ending;
use crate::fitting::fitted;
use diagnostics::Ending;
use matrix_free::apply;
use matrix_market::{Values, values_text};
use mesh_loop::Setup;
use run_outputs::{Target, first_target};
use run_words::Options;
use scratch_pool::Gate;
use std::alloc::Global;
use std::thread::Threads;
use system_texts::{colors_of, plan_of};

// The greatest size of a value.
const VALUE_LIMIT: u32 = 1_048_576;

/// The text of the product of the operator of a system with a vector: a value for each degree of freedom, in the form of a
/// right side, in units of 2^-32. No entry of a matrix is made.
///
/// # Errors
///
/// That the vector hasn't one value for each degree of freedom, or the first value above 2^20 in size; or the first cell in
/// the order of the colours whose local form has a fault, or which has a local row whose product passes 2^104 in size.
pub fn product_targets<'a, R: Threads + Sync, G: Gate + Sync>(
    rt: &R,
    alloc: Global,
    options: &Options<'a>,
    setup: &Setup,
    values: &Values,
    gate: &G,
) -> Result<Vec<Target<'a>>, Ending>
    requires within { IsWithinRanges (seen options.now) }
    requires few { length values.now < 2 ^ 32 }
    ensures ok { IfOk result (λ targets. ProductTexts (seen_output options.now.output) values.now setup.now (Ok (map seen_target targets.items))) }
    ensures ends { IfErr result (EndsIn (ProductTexts (seen_output options.now.output) values.now setup.now)) }
{
    let x = match fitted(alloc, values.as_slice(), setup.size(), VALUE_LIMIT) {
        Ok(x) => x,
        Err(ending) => return Err(ending),
    };
    let list = match product_of(rt, alloc, options, setup, x.as_slice(), gate) {
        Ok(list) => list,
        Err(ending) => return Err(ending),
    };
    let text = values_text(alloc, list.as_slice())?;
    let targets = first_target(alloc, options.output, text)?;
    Ok(targets)
}

// The product, in rounds of the cells of a colour.
fn product_of<R: Threads + Sync, G: Gate + Sync>(
    rt: &R,
    alloc: Global,
    options: &Options<'_>,
    setup: &Setup,
    x: &[i64],
    gate: &G,
) -> Result<Vec<i128>, Ending>
    requires within { IsWithinRanges (seen options.now) }
    requires values { AreValues setup.now x.now }
    ensures ok { IfOk result (λ list. ProductOf setup.now x.now (Ok list.items)) }
    ensures ends { IfErr result (EndsIn (ProductOf setup.now x.now)) }
{
    let plan = plan_of(options);
    let colors = colors_of(alloc, setup)?;
    match apply(rt, alloc, setup, &colors, &plan, x, gate) {
        Ok(list) => Ok(list),
        Err(fault) => Err(product_ending(fault)),
    }
}
