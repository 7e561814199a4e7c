// The theorems of bases, corners and exchanges. Each function's contract is the law that its name says.
ghost use Rattle.tableau.specs.TheoremsBasis.{BasisHasATableau, CornersHaveAnAscendingOrder, DenominatorIsLeast, LeastDenominatorIsATableau, OneAscendingOrder, OneTableau, TableauMeansABasis, TableausHaveAnAscendingOrder};
ghost use Rattle.tableau.specs.TheoremsMask.{MaskAcross, MasksAreShort, OneBasisOneMask, OneMaskOneBasis};
ghost use Rattle.tableau.specs.TheoremsWidth.{ArtificialLimitsAreInWidth};
ghost use Rattle.tableau.specs.TheoremsCorner.{CertificateMeansNoCommand, CornerExcludesBetterDirections, LowestTermsAreBest, NoRowMeansNoCommand, RegionGivesTheBest, WeightsAreACertificate, WeightsExist};
ghost use Rattle.tableau.specs.TheoremsExchange.{ExchangeLeadsToACorner, ExchangeRewritesEveryRow, ExchangedNumbersAreACorner, ExchangedNumbersLeadBack, ExchangesLeadBack, GreatestDivisorGivesLowestTerms, OneCornerAcross, OneLimitLeaves, SomeLimitLeaves, TiedLimitFindsARow, WillingLimitsAreOutside};
ghost use Rattle.tableau.specs.TheoremsRun.{EndedOrGoesOn, EndsAnswer, NoBasisTwice, OneCornerWithoutWillingLimits, RunsAreShort, RunsEnd, StandingFalls, StandingHoldsTheRows};
ghost use Rattle.tableau.specs.TheoremsSearch.{ArtificialLimitMeansABetterDirection, ArtificialLimitsAreACorner, CornerOrBetterDirection, DirectionFallsAtEachStep, NoBasisTwiceInASearch, SearchEndedOrGoesOn, SearchFindsARow, SearchLimitsOfTheBasisAreMet, SearchedNumbersAreACorner, SearchesAreShort, SearchesEnd, TrueLimitsAreACorner};
ghost use Rattle.tableau.specs.TheoremsClosed.{FinishedListsAnswer, NoRegionMeansNoCommand, RunsStayListed};
ghost use Rattle.tableau.specs.TheoremsPerturbed.{CornersArePositiveForPerturbedGains, PositiveForPerturbedGainsAreCorners, PositiveListsArePositiveNumbers, WillingLimitsAreNegativeForPerturbedSides};

pub fn a_basis_has_one_tableau()
    ensures there { BasisHasATableau }
    ensures back { TableauMeansABasis }
    ensures one { OneTableau }
    ensures least { DenominatorIsLeast }
    ensures smallest { LeastDenominatorIsATableau }
    ensures ascending { TableausHaveAnAscendingOrder }
    ensures corners { CornersHaveAnAscendingOrder }
    ensures once { OneAscendingOrder }
{}

pub fn a_mask_tells_corners_apart()
    ensures short { MasksAreShort }
    ensures basis { OneMaskOneBasis }
    ensures one { OneBasisOneMask }
    ensures across { MaskAcross }
{}

pub fn artificial_limits_do_not_widen_a_tableau()
    ensures { ArtificialLimitsAreInWidth }
{}

pub fn a_corner_without_negative_slacks_gives_the_best_command()
    ensures best { RegionGivesTheBest }
    ensures lowest { LowestTermsAreBest }
{}

pub fn a_negative_slack_without_a_leaving_row_means_no_command()
    ensures none { NoRowMeansNoCommand }
    ensures weights { WeightsExist }
    ensures certificate { WeightsAreACertificate }
    ensures shows { CertificateMeansNoCommand }
{}

pub fn where_a_corner_exists_no_free_direction_is_better()
    ensures { CornerExcludesBetterDirections }
{}

pub fn an_exchange_leads_from_a_corner_to_a_corner()
    ensures there { ExchangeLeadsToACorner }
    ensures numbers { ExchangedNumbersAreACorner }
    ensures lowest { GreatestDivisorGivesLowestTerms }
    ensures one { OneCornerAcross }
{}

pub fn an_exchange_rewrites_every_row()
    ensures { ExchangeRewritesEveryRow }
{}

pub fn the_leaving_limit_is_one()
    ensures one { OneLimitLeaves }
    ensures some { SomeLimitLeaves }
    ensures tied { TiedLimitFindsARow }
    ensures outside { WillingLimitsAreOutside }
{}

pub fn exchanges_lead_back()
    ensures limits { ExchangesLeadBack }
    ensures numbers { ExchangedNumbersLeadBack }
{}

pub fn the_standing_falls_at_every_exchange()
    ensures rows { StandingHoldsTheRows }
    ensures falls { StandingFalls }
{}

pub fn no_run_stands_at_a_basis_twice()
    ensures { NoBasisTwice }
{}

pub fn runs_are_shorter_than_the_choices_of_limits()
    ensures { RunsAreShort }
{}

pub fn every_run_ends_with_the_best_command_or_none()
    ensures next { EndedOrGoesOn }
    ensures ends { RunsEnd }
    ensures answers { EndsAnswer }
{}

pub fn a_reading_has_one_corner_without_willing_limits()
    ensures { OneCornerWithoutWillingLimits }
{}

pub fn the_search_falls_at_every_exchange()
    ensures first { ArtificialLimitsAreACorner }
    ensures row { SearchFindsARow }
    ensures met { SearchLimitsOfTheBasisAreMet }
    ensures numbers { SearchedNumbersAreACorner }
    ensures falls { DirectionFallsAtEachStep }
    ensures twice { NoBasisTwiceInASearch }
    ensures short { SearchesAreShort }
{}

pub fn the_search_ends_at_a_corner_or_a_better_direction()
    ensures next { SearchEndedOrGoesOn }
    ensures ends { SearchesEnd }
    ensures corner { TrueLimitsAreACorner }
    ensures direction { ArtificialLimitMeansABetterDirection }
    ensures either { CornerOrBetterDirection }
{}

pub fn a_finished_list_answers_wherever_a_command_exists()
    ensures answers { FinishedListsAnswer }
    ensures none { NoRegionMeansNoCommand }
{}

pub fn no_run_leaves_a_finished_list()
    ensures { RunsStayListed }
{}

pub fn a_positive_list_is_a_positive_number_for_small_perturbations()
    ensures { PositiveListsArePositiveNumbers }
{}

pub fn corners_are_those_of_perturbed_gains()
    ensures there { CornersArePositiveForPerturbedGains }
    ensures back { PositiveForPerturbedGainsAreCorners }
{}

pub fn willing_limits_are_those_of_perturbed_sides()
    ensures { WillingLimitsAreNegativeForPerturbedSides }
{}
