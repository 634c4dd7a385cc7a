//! Points with what their instructions do to places.
ghost use Rattle.std.specs.Prelude.{◌≡◌, ◌∷◌, [], Err, IfOk, IsTrue, false, true};
ghost use Rattle.flow_paths.specs.Stands.{flow_point_of};
ghost use Rattle.bare_points.specs.Bare.{bare_of, dress};
ghost use Rattle.flow_acts.specs.declared.fault.ActFault.TheVariants.{TooDeep as Deep};
ghost use Rattle.sub_summary.specs.Gathered.{points_shallow};
ghost use Rattle.sub_layout.specs.Dressed.{dressed_in, has_deep_point, is_deep_point, making, points_in};

use flow_acts::{ActFault, ActWriter};
use flow_paths::Point;
use spark_base::Listed;

/// A point with its acts and leak checks.
#[tactic(auto, using(crate::proofs::DeepPoints::acts_deep))]
fn dressed(writer: &ActWriter<'_>, given: Option<u32>, point: Point) -> Result<Point, ActFault>
    ensures point { IfOk result (λ made. flow_point_of writer.now.rows.now made
        ≡ dress (making writer.now given) (bare_of writer.now.rows.now point)) }
    ensures within { IfOk result (λ made. is_deep_point (flow_point_of writer.now.rows.now made) ≡ false) }
    ensures deep { result ≡ Err Deep
        → IsTrue (is_deep_point (dress (making writer.now given) (bare_of writer.now.rows.now point))) }
{
    let acts = writer.acts_of(given, &[], point.pos, &point.instr)?;
    let leaks = writer.leaks_of(point.pos, &point.instr)?;
    Ok(Point {
        acts,
        leaks,
        ..point
    })
}

/// The points of a subprogram with their acts and leak checks. `bare` has none; `given` is the type
/// of what a function gives. The end of a call looks at nothing yet. `TooDeep` comes only where a
/// name of some act, of a fact that it adds or of a leak check has more than 16 selectors, and then
/// always.
#[tactic(auto, using(crate::proofs::DeepPoints::deep_some, crate::proofs::DeepPoints::deep_none, crate::proofs::DeepPoints::all_shallow))]
pub fn dress(
    writer: &ActWriter<'_>,
    given: Option<u32>,
    bare: Vec<Point>,
) -> Result<Vec<Point>, ActFault>
    ensures points { IfOk result (λ made. points_in writer.now.rows.now made.items ≡ dressed_in writer.now given bare.items) }
    ensures within { IfOk result (λ made. has_deep_point (points_in writer.now.rows.now made.items) ≡ false) }
    ensures shallow { IfOk result (λ made. points_shallow made.items ≡ true) }
    ensures deep { result ≡ Err Deep → IsTrue (has_deep_point (dressed_in writer.now given bare.items)) }
{
    let mut made = Listed::new(writer.alloc);
    'points: for point in bare {
        let point = dressed(writer, given, point)?;
        made.push(point)?;
    }
    Ok(made.into_vec())
}
