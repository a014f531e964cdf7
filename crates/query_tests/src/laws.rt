//! The laws on expressions and on SELECTs.

#[test]
fn laws_can_be_called() {
    tri_expr::law::aggregates_ignore_order();
    tri_expr::law::values_ignore_order();
    tri_expr::law::safe_expression_has_value();
    tri_expr::law::conjuncts_decide_condition();
    tri_expr::law::verdicts_ignore_order();
    tri_expr::law::column_over_equal_rows_is_their_value();
    tri_expr::law::same_trees_are_equal();
    tri_expr::law::bare_tree_means_the_same();
    med_query::law::answers_ignore_order();
    med_query::law::expressions_ignore_order();
    med_query::law::distinct_ignores_order();
}
