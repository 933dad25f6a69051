// Domains over the fields.
use fields::byte::Byte;
use fields::field::Field;
use fields::pair::Pair;
use fields::tower::TowerLevel;
use skip_dimensions::fault::SkipDomainError;
use skip_domain::domain::SkipDomain;
use std::process::Abort;
use std::test::Fail;

fn check_numbers(rt: &impl Abort, elements: &[Byte], numbers: &[u128]) {
    assert_eq!(rt; elements.len(), numbers.len());
    for (x, n) in elements.iter().zip(numbers.iter()) {
        assert_eq!(rt; x.to_number(), *n);
    }
}

// S has 0 to 7 here, and v_3 is 0A.
#[test]
fn three_dimensions_in_four(rt: HostRuntime) -> Result<(), Fail> {
    let mut points = [<Byte as Field>::zero(); 16];
    let Ok(domain) = SkipDomain::<Byte>::new(3, 4, &mut points) else {
        return Err(Fail::new("the domain was refused"));
    };
    let Ok(transmitted) = domain.transmitted(&points) else {
        return Err(Fail::new("the points were refused"));
    };
    check_numbers(&rt, transmitted, &[10, 11, 8, 9, 14, 15, 12, 13]);
    let mut values = [<Byte as Field>::zero(); 8];
    assert!(rt; domain.vanishing_on_transmitted(&mut values).is_ok());
    check_numbers(&rt, &values, &[1; 8]);
    assert_eq!(rt;
        domain
            .vanishing(<Byte as TowerLevel>::from_number(10))
            .to_number(),
        1
    );
    assert_eq!(rt; domain.derivative_on_subspace().to_number(), 1);
    Ok(())
}

#[test]
fn short_buffer_is_kept(rt: HostRuntime) -> Result<(), Fail> {
    let mut points = [<Byte as Field>::one(); 15];
    let Err(fault) = SkipDomain::<Byte>::for_degree(3, 2, &mut points) else {
        return Err(Fail::new("a short buffer was taken"));
    };
    assert_eq!(rt;
        fault,
        SkipDomainError::BufferLenMismatch {
            place: 1,
            expected: 16,
            actual: 15,
        }
    );
    check_numbers(&rt, &points, &[1; 15]);
    Ok(())
}

// Over 32 bits the limit of 16 dimensions comes first.
#[test]
fn seventeen_dimensions(rt: HostRuntime) -> Result<(), Fail> {
    let Err(fault) = SkipDomain::<Pair<Pair<Byte>>>::for_degree(15, 17, &mut []) else {
        return Err(Fail::new("20 dimensions were built"));
    };
    assert_eq!(rt;
        fault,
        SkipDomainError::ExtensionBeyondLimit { log_extended: 20 }
    );
    Ok(())
}
