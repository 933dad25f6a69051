// Dimensions and degrees.
use skip_dimensions::degree::{admits_degree, dimensions_for_degree, extra_dimensions};
use skip_dimensions::dimensions::Dimensions;
use skip_dimensions::fault::SkipDomainError;
use skip_dimensions::refusal::Refusal;
use std::test::Fail;

#[test]
fn degrees_need_dimensions(rt: HostRuntime) {
    assert_eq!(rt; extra_dimensions(0), None);
    assert_eq!(rt; extra_dimensions(1), Some(1));
    assert_eq!(rt; extra_dimensions(2), Some(1));
    assert_eq!(rt; extra_dimensions(3), Some(2));
    assert_eq!(rt; extra_dimensions(5), Some(3));
    assert_eq!(rt; extra_dimensions(8), Some(3));
    assert_eq!(rt; extra_dimensions(9), Some(4));
    assert_eq!(rt; extra_dimensions(usize::MAX), Some(64));
}

// Degree 9 would fit, 9 * 7 = 63 < 64, and is not admitted: the converse is not promised.
#[test]
fn fitting_is_not_admitting(rt: HostRuntime) {
    assert!(rt; admits_degree(3, 6, 8));
    assert!(rt; !admits_degree(3, 6, 9));
    assert!(rt; 9 * 7 < 64);
}

// The sum of dimensions is a whole number here, not the capped word.
#[test]
fn capped_sum_does_not_admit(rt: HostRuntime) {
    assert_eq!(rt; dimensions_for_degree(usize::MAX, 1), Some(usize::MAX));
    assert!(rt; !admits_degree(usize::MAX, usize::MAX, 1));
}

// Over 32 bits the machine's limit comes before the field's.
#[test]
fn more_than_sixteen_dimensions(rt: HostRuntime) -> Result<(), Fail> {
    let Err(direct) = Dimensions::new(5, 15, 17) else {
        return Err(Fail::new("17 dimensions were built"));
    };
    assert_eq!(rt; direct.number(), 3);
    assert_eq!(rt;
        direct,
        SkipDomainError::ExtensionBeyondLimit { log_extended: 17 }
    );
    let Err(sized) = Dimensions::for_degree(5, 15, 17) else {
        return Err(Fail::new("20 dimensions were built"));
    };
    assert_eq!(rt;
        sized,
        SkipDomainError::ExtensionBeyondLimit { log_extended: 20 }
    );
    Ok(())
}

// A word counts the points of at most 63 dimensions, however wide the field.
#[test]
fn word_limits_wide_fields(rt: HostRuntime) -> Result<(), Fail> {
    let Err(fault) = Dimensions::new(64, 15, 64) else {
        return Err(Fail::new("64 dimensions were built"));
    };
    assert_eq!(rt;
        fault,
        SkipDomainError::ExtensionTooWide {
            log_extended: 64,
            limit: 63,
        }
    );
    Ok(())
}
