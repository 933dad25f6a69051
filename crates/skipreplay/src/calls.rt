// The calls, over any level F and an extension EF of it. Every lent buffer is filled beforehand, so that
// what a call wrote and what it left can be seen.
use crate::print::{Elements, Refused};
use crate::question::{Call, Numbers, Question};
use crate::unanswered::Unanswered;
use field_dimensions::over::dimensions_over;
use fields::extension::ExtensionField;
use fields::field::Field;
use fields::text::Hexadecimal;
use fields::tower::TowerLevel;
use skip_composition::composition::Composition;
use skip_composition::conjunction::Conjunction;
use skip_composition::square_product::SquareProduct;
use skip_dimensions::degree::extra_dimensions;
use skip_dimensions::fault::SkipDomainError;
use skip_domain::domain::SkipDomain;
use skip_lde::fault::CompressedLdeError;
use skip_lde::lde::CompressedLde;
use std::io::Write;

type Response = Result<(), Unanswered>;

impl Question<'_> {
    fn extra(&mut self) -> Response {
        let degree = self.number()?;
        match extra_dimensions(degree) {
            Some(extra) => write!(self.answer, "{extra}")?,
            None => write!(self.answer, "none")?,
        }
        Ok(())
    }

    fn write_domain<F: TowerLevel>(&mut self, domain: &SkipDomain<F>, points: &[F]) -> Response {
        let (log_size, size) = (domain.log_size(), domain.size());
        let (log_extended, count) = (domain.log_extended(), domain.num_transmitted());
        let derivative = Hexadecimal(domain.derivative_on_subspace());
        write!(
            self.answer,
            "ok {log_size} {size} {log_extended} {count} {derivative}"
        )?;
        let subspace = Elements(domain.subspace(points)?);
        let transmitted = Elements(domain.transmitted(points)?);
        write!(self.answer, " | {subspace} | {transmitted}")?;
        Ok(())
    }

    // What came of building a domain into a points buffer.
    fn write_built<F: TowerLevel>(
        &mut self,
        built: Result<SkipDomain<F>, SkipDomainError>,
        points: &[F],
    ) -> Response {
        match built {
            Ok(domain) => self.write_domain(&domain, points),
            Err(fault) => self.write_filled(Err(Unanswered::from(fault)), points),
        }
    }

    // A domain from its dimensions, with a points buffer of the length that is asked for.
    fn new_domain<F: TowerLevel + Clone>(&mut self) -> Response {
        let n = self.numbers()?;
        let mut points = self.lent::<F>(n.third)?;
        let built = SkipDomain::new(n.first, n.second, points.as_mut_slice());
        self.write_built(built, points.as_slice())
    }

    // The same from the dimension of the subspace and a degree.
    fn domain_for_degree<F: TowerLevel + Clone>(&mut self) -> Response {
        let n = self.numbers()?;
        let mut points = self.lent::<F>(n.third)?;
        let built = SkipDomain::for_degree(n.first, n.second, points.as_mut_slice());
        self.write_built(built, points.as_slice())
    }

    // A domain by its dimensions, with a points buffer of the length that it wants.
    fn domain<F: TowerLevel + Clone>(
        &self,
        log_size: usize,
        log_extended: usize,
    ) -> Result<SkipDomain<F>, Unanswered> {
        let dimensions = dimensions_over::<F>(log_size, log_extended)?;
        let mut points = self.lent::<F>(dimensions.extended_size())?;
        Ok(SkipDomain::new(log_size, log_extended, points.as_mut_slice())?)
    }

    fn admits<F: TowerLevel + Clone>(&mut self) -> Response {
        let n = self.numbers()?;
        let admitted = self.domain::<F>(n.first, n.second)?.admits_degree(n.third);
        write!(self.answer, "{admitted}")?;
        Ok(())
    }

    fn vanishing<F: TowerLevel + Clone>(&mut self) -> Response {
        let (log_size, log_extended) = (self.number()?, self.number()?);
        let x = self.element::<F>()?;
        let value = self.domain::<F>(log_size, log_extended)?.vanishing(x);
        write!(self.answer, "{}", Hexadecimal(value))?;
        Ok(())
    }

    // What came of filling a lent buffer, and the buffer as it was left.
    fn write_filled<F: TowerLevel>(&mut self, filled: Response, buffer: &[F]) -> Response {
        match filled {
            Ok(()) => write!(self.answer, "ok")?,
            Err(Unanswered::Refused(fault)) => write!(self.answer, "{}", Refused(fault))?,
            Err(other) => return Err(other),
        }
        write!(self.answer, " | {}", Elements(buffer))?;
        Ok(())
    }

    fn fill_vanishings<F: TowerLevel + Clone>(&self, n: Numbers, output: &mut [F]) -> Response {
        let domain = self.domain::<F>(n.first, n.second)?;
        Ok(domain.vanishing_on_transmitted(output)?)
    }

    fn vanishings<F: TowerLevel + Clone>(&mut self) -> Response {
        let n = self.numbers()?;
        let mut output = self.lent::<F>(n.third)?;
        let filled = self.fill_vanishings(n, output.as_mut_slice());
        self.write_filled(filled, output.as_slice())
    }

    fn table<F: TowerLevel + Clone>(&mut self) -> Response {
        let n = self.numbers()?;
        let mut table = self.lent::<F>(n.third)?;
        match CompressedLde::new(n.first, n.second, table.as_mut_slice()) {
            Ok(lde) => {
                let (count, chunks) = (lde.num_transmitted(), lde.num_chunks());
                write!(self.answer, "ok {count} {chunks} {}", lde.table_len())?;
            }
            Err(fault) => write!(self.answer, "{}", Refused(fault))?,
        }
        write!(self.answer, " | {}", Elements(table.as_slice()))?;
        Ok(())
    }

    // Extends rows from the built table by one of the two calls that do.
    fn fill_extended<F: TowerLevel + Clone, E>(
        &self,
        n: Numbers,
        rows: &[u8],
        output: &mut [F],
        extend: E,
    ) -> Response
    where
        E: FnOnce(&CompressedLde<F>, &[F], &[u8], &mut [F]) -> Result<(), CompressedLdeError>,
        requires { E.IsAlwaysCallable extend }
    {
        let dimensions = dimensions_over::<F>(n.first, n.second)?;
        let mut table = self.lent::<F>(dimensions.table_len())?;
        let lde = CompressedLde::from_dimensions(dimensions, table.as_mut_slice())?;
        Ok(extend(&lde, table.as_slice(), rows, output)?)
    }

    fn extend_by<F: TowerLevel + Clone, E>(&mut self, extend: E) -> Response
    where
        E: FnOnce(&CompressedLde<F>, &[F], &[u8], &mut [F]) -> Result<(), CompressedLdeError>,
        requires { E.IsAlwaysCallable extend }
    {
        let n = self.numbers()?;
        let rows = self.row()?;
        let mut output = self.lent::<F>(n.third)?;
        let filled = self.fill_extended(n, rows.as_slice(), output.as_mut_slice(), extend);
        self.write_filled(filled, output.as_slice())
    }

    // Evaluates a composition at the elements that the words write.
    fn compose<F: Field, C: Composition<F>, E: TowerLevel, V>(
        &mut self,
        composition: &C,
        evaluate: V,
    ) -> Response
    where
        V: FnOnce(&C, &[E]) -> E,
        requires { V.IsAlwaysCallable evaluate }
    {
        let values = self.elements::<E>()?;
        let value = Hexadecimal(evaluate(composition, values.as_slice()));
        let (arity, degree) = (composition.arity(), composition.degree());
        write!(self.answer, "{arity} {degree} {value}")?;
        Ok(())
    }

    fn compose_base<F: TowerLevel, C: Composition<F>>(&mut self, composition: &C) -> Response {
        self.compose::<F, C, F, _>(composition, |c, values| c.eval_base(values))
    }

    fn compose_extension<F: Field, EF: TowerLevel + ExtensionField<F, D>, D, C: Composition<F>>(
        &mut self,
        composition: &C,
    ) -> Response {
        self.compose::<F, C, EF, _>(composition, |c, values| {
            c.eval_extension::<EF, D>(values)
        })
    }

    // The answer to a call over F.
    pub(crate) fn respond_in<F: TowerLevel + Clone>(&mut self, call: Call) -> Response {
        match call {
            Call::Extra => self.extra(),
            Call::New => self.new_domain::<F>(),
            Call::Degree => self.domain_for_degree::<F>(),
            Call::Admits => self.admits::<F>(),
            Call::Vanishing => self.vanishing::<F>(),
            Call::Vanishings => self.vanishings::<F>(),
            Call::Table => self.table::<F>(),
            Call::Extend => {
                self.extend_by::<F, _>(|lde, table, row, out| lde.extend(table, row, out))
            }
            Call::Batch => {
                self.extend_by::<F, _>(|lde, table, rows, out| lde.extend_batch(table, rows, out))
            }
            Call::Conjunction => self.compose_base::<F, Conjunction>(&Conjunction),
            Call::Square => self.compose_base::<F, SquareProduct>(&SquareProduct),
            Call::Conjunction64 | Call::Square64 => Err(Unanswered::Unknown),
        }
    }

    // The same over F and an extension EF of it.
    pub(crate) fn respond_over<F: TowerLevel + Clone, EF: TowerLevel + ExtensionField<F, D>, D>(
        &mut self,
        call: Call,
    ) -> Response {
        match call {
            Call::Conjunction64 => { self.compose_extension::<F, EF, D, Conjunction>(&Conjunction) }
            Call::Square64 => self.compose_extension::<F, EF, D, SquareProduct>(&SquareProduct),
            _ => self.respond_in::<F>(call),
        }
    }
}
