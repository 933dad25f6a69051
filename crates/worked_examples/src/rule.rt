// The rules by their codes.
use fields::bit::Bit;
use fields::field::Field;
use fields::tower::TowerLevel;
use skip_composition::composition::Composition;
use skip_composition::rule::Rule;
use std::test::Fail;

#[test]
fn arity_and_degree_of_each_code(rt: HostRuntime) -> Result<(), Fail> {
    let arities_and_degrees = [(1, 1), (1, 2), (3, 2), (4, 3)];
    for (code, &(arity, degree)) in arities_and_degrees.iter().enumerate() {
        let rule = Rule::from_code(code).ok_or("a code has no rule")?;
        assert_eq!(rt; rule.arity(), arity);
        assert_eq!(rt; rule.degree(), degree);
    }
    Ok(())
}

// A missing operand is zero, and a surplus one is skipped.
#[test]
fn chain_of_bits(rt: HostRuntime) {
    let one = Bit::one();
    let values = [one, one, one, one, one];
    let rule = Rule::StopChain;
    assert_eq!(rt; rule.eval_base(&values[0..4]).to_number(), 0);
    assert_eq!(rt; rule.eval_base(&values[0..3]).to_number(), 1);
    assert_eq!(rt; rule.eval_base(&values[0..5]).to_number(), 0);
    assert_eq!(rt; rule.eval_base(&values[0..2]).to_number(), 0);
}
