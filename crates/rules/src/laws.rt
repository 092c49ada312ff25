// Laws about what calls do. Each function does nothing, and its contract is the law.
ghost use Rattle.rules.specs.Laws.{ReviewingAgainAltersNothing, CallsLeaveItReviewed, ReviewsAlterStatesAndOrders, CancelsTakeOneOrder, OrdersStayWithinTheLimit, CallsKeepNumbersApart, OrdersHaveTheNextNumber, NumberedOrdersAreApart, EnteredOrdersAreHeld, StandingsByThePrices};

// A review over what a review left alters nothing more, every taken call leaves its ledger so, and no review alters more than states and orders.
pub fn reviews_settle_the_ledger()
    ensures again { ReviewingAgainAltersNothing }
    ensures calls { CallsLeaveItReviewed }
    ensures rest { ReviewsAlterStatesAndOrders }
{}

// Taking an order back takes that order and no other; the review that follows may void more where another book is handed in, and puts none in.
pub fn cancels_take_one_order()
    ensures { CancelsTakeOneOrder }
{}

// No order brings its account above the most that it may hold and have ordered on one side.
pub fn orders_stay_within_the_limit()
    ensures { OrdersStayWithinTheLimit }
{}

// Every order has a number above all that were given before, and no call brings a number back.
pub fn order_numbers_rise()
    ensures calls { CallsKeepNumbersApart }
    ensures next { OrdersHaveTheNextNumber }
    ensures apart { NumberedOrdersAreApart }
{}

// An order that is taken is not void by its own review: it is held under the number that was answered.
pub fn entered_orders_are_held()
    ensures { EnteredOrdersAreHeld }
{}

// Equity is what an account would hold closed out at the last price; before any fill it is its balance, and before any spot price nothing is required.
pub fn standings_follow_the_prices()
    ensures { StandingsByThePrices }
{}
