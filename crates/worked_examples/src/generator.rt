// Values drawn from known seeds, worked out beside splitmix64's published numbers.
use fields::Pair64;
use fields::byte::Byte;
use fields::field::Field;
use fields::tower::TowerLevel;
use measuring::generator::Generator;
use std::test::Fail;

// The seed 1234567 is the published one.
#[test]
fn numbers_are_published(rt: HostRuntime) -> Result<(), Fail> {
    let mut source = Generator { state: 1234567 };
    let mut elements = [Pair64::zero(); 3];
    source.fill_elements(elements.as_mut_slice());
    let numbers = [
        6457827717110365317,
        3203168211198807973,
        9817491932198370423,
    ];
    for (x, n) in elements.iter().zip(numbers.iter()) {
        assert_eq!(rt; x.to_number(), *n);
    }
    assert_eq!(rt; source.number(), 4593380528125082431);
    Ok(())
}

// The fourth number ends in a byte of zeros: the element is one.
#[test]
fn zero_is_drawn_as_one(rt: HostRuntime) -> Result<(), Fail> {
    let mut source = Generator { state: 627 };
    let mut elements = [Byte::zero(); 6];
    source.fill_elements(elements.as_mut_slice());
    for (x, n) in elements.iter().zip([112, 61, 228, 1, 141, 84].iter()) {
        assert_eq!(rt; x.to_number(), *n);
    }
    assert_eq!(rt; source.state, 13064056694810536689);
    Ok(())
}

#[test]
fn bytes_are_low_bits(rt: HostRuntime) -> Result<(), Fail> {
    let mut source = Generator { state: 627 };
    let mut bytes = [0; 6];
    source.fill_bytes(bytes.as_mut_slice());
    assert_eq!(rt; bytes.as_slice(), [112, 61, 228, 0, 141, 84].as_slice());
    assert_eq!(rt; source.state, 13064056694810536689);
    source.fill_bytes([].as_mut_slice());
    assert_eq!(rt; source.state, 13064056694810536689);
    Ok(())
}
