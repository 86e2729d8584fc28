ghost use Rattle.std.specs.Prelude.{◌≡◌, ◌++◌, decimal, IsOkUnless, OnOk};
ghost use Rattle.omega_lang_lasso_check.specs.FaultText.{fault_text};

use crate::fault::LassoFault;
use omega_text::{Refusal, write_number};

/// Appends the message of `fault`, as it displays itself.
pub fn write_lasso_fault(fault: LassoFault, out: &mut Vec<u8>) -> Result<(), Refusal>
    ensures text { OnOk result (out.new.items ≡ out.old.items ++ fault_text fault) }
    ensures memory { IsOkUnless result Refusal.Memory }
{
    match fault {
        LassoFault::NoCycle => Ok(out.extend_from_slice(b"the cycle has no edge")?),
        LassoFault::NotThere(edge) => write_edge(b"edge ", edge, b" is not there", out),
        LassoFault::NoStart(edge) => write_edge(b"edge ", edge, b" leaves no start", out),
        LassoFault::Apart(edge) => { write_edge(b"edge ", edge, b" does not follow", out) }
        LassoFault::NotClosed => Ok(out.extend_from_slice(b"the cycle does not close")?),
        LassoFault::NeverTrue(edge) => { write_edge(b"edge ", edge, b" can not be taken", out) }
        LassoFault::NotAccepted => Ok(out.extend_from_slice(b"the cycle does not accept")?),
    }
}

/// Appends the number of `edge` between `front` and `back`.
fn write_edge(front: &[u8], edge: u32, back: &[u8], out: &mut Vec<u8>) -> Result<(), Refusal>
    ensures text { OnOk result
        (out.new.items ≡ out.old.items ++ (front.now ++ (decimal edge ++ back.now))) }
    ensures memory { IsOkUnless result Refusal.Memory }
{
    out.extend_from_slice(front)?;
    write_number(u128::from(edge), out)?;
    out.extend_from_slice(back)?;
    Ok(())
}
