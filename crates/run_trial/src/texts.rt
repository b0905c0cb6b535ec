use crate::script::{TWO_FORMULAS, printed};
use recalc_workers::OpenGate;
use std::test::Fail;

// One client's firm look leaves no choice: a sheet, a script, the workers, and what is printed.
#[test]
fn firm_looks_leave_no_choice(rt: HostRuntime) -> Result<(), Fail> {
    for &(sheet, script, workers, wanted) in &[
        (
            TWO_FORMULAS,
            "client ann\nset A1 5\nfirm B1\nlook A1\n",
            2,
            "log 1\n1 ann set A1 5\nclient ann\nfirm 1 B1:B1\n6\nlook 1 A1:A1\n5\nsheet 1 A1:B2\n5,6\n2,8\n",
        ),
        (
            "1,=A1\n",
            "set A1 =B1\nfirm A1:B1\n",
            1,
            "log 1\n1 main set A1 =B1\nclient main\nfirm 1 A1:B1\n#CIRC!,#CIRC!\n\
             sheet 1 A1:B1\n#CIRC!,#CIRC!\n",
        ),
        (TWO_FORMULAS, "", 3, "log 0\nsheet 0 A1:B2\n1,2\n2,4\n"),
    ] {
        let text = printed(&rt, rt.alloc(), sheet, script, workers, &OpenGate)?;
        assert_eq!(rt; (workers, text.as_str()), (workers, wanted));
    }
    Ok(())
}
